//! What `omos` says of itself.

/// The line beside a faulty command line.
pub(crate) const USAGE: &str = "usage: omos SOCKET put PATH FILE
       omos SOCKET blueprint PATH FILE
       omos SOCKET link PATH FILE
       omos SOCKET where PATH
       omos SOCKET stats
       omos SOCKET flush PATH
       omos --help says more";

/// The version of the program.
pub(crate) const VERSION: &str = "omos 0.2.0";

/// What `--help` prints.
pub(crate) const HELP: &str = "omos, the client of the linker server omosd

  omos SOCKET put PATH FILE         publishes the object in FILE under PATH
  omos SOCKET blueprint PATH FILE   publishes the blueprint in FILE under PATH
  omos SOCKET link PATH FILE        links PATH, and writes the executable to FILE
  omos SOCKET where PATH            prints the addresses that PATH's images have had
  omos SOCKET stats                 prints the server's counts
  omos SOCKET flush PATH            takes PATH's image out of the server's cache

  omos --help      prints this
  omos --version   prints the version

SOCKET is the socket file at which omosd listens. A PATH of the server is as /lib/alloc.

Status: 0 done; 1 the server refused or was full, and the line says why; 2 the command
line is wrong; 3, 4 the connection failed; 5 the answer is no reply to this request; 6 a
file can't be read or written; 7 the server went away; 8 there is no memory; 9 no server
listens at SOCKET; 10 FILE has more than 2,000,000 bytes; 11 standard output can't be
written; 12 the server had no memory.";
