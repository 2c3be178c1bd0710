//! What `omosd` says of itself.

/// The line beside a faulty command line.
pub(crate) const USAGE: &str = "usage: omosd once < OBJECT > IMAGE
       omosd stdio CACHE STEPS < REQUESTS > REPLIES
       omosd socket PATH WORKERS SESSIONS CACHE STEPS
       omosd workload N
       omosd --help says more";

/// The version of the program.
pub(crate) const VERSION: &str = "omosd 0.2.0";

/// What `--help` prints.
pub(crate) const HELP: &str = "omosd, a linker server

  omosd once < OBJECT > IMAGE
      reads one ELF64 x86-64 relocatable object on standard input and writes its
      static executable, placed at 0x00400000, on standard output

  omosd stdio CACHE STEPS < REQUESTS > REPLIES
      serves one session over standard input and output

  omosd socket PATH WORKERS SESSIONS CACHE STEPS
      listens at the socket file PATH, serves SESSIONS connections by WORKERS threads
      on one store, and then prints the totals and ends; the client is omos

  omosd workload N
      makes N objects, serves a session that links them to 2 * N images, and prints
      what its replies come to; N is 1 to 200

  omosd --help      prints this
  omosd --version   prints the version

WORKERS is 1 to 16, and SESSIONS 1 to 1000000. The cache holds CACHE images, 1 to 64,
and the record STEPS steps, 16 to 65536; a publish takes one step, a link at most five.

Status: 0 done; 1 the object is refused, and the output is the one line that says why;
2 the command line is wrong; 3 standard input can't be read; 4 standard output can't be
written; 5 the requests end inside a frame, or have bytes that begin none; 6 there are
more than 65,536 requests; 8 there is no memory; 9 PATH can't be listened at, or a
connection couldn't be taken; 10 the system gives no random bytes.";
