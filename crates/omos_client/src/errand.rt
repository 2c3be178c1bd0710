//! What the words of the client's command line ask for.

ghost use Rattle.std.specs.Prelude.{◌≡◌, ◌≤◌, IfSome, length, map, option_map, string_bytes};
ghost use Rattle.omos_client.specs.Errands.{alone_command, asked_by, asked_of, file_command};
ghost use Rattle.omos_client.specs.Errands.{is_sent, path_command, with_file};
ghost use Rattle.omos_client.specs.Errands.{asked_of_path, lone_word};

/// What a request asks of the server.
#[derive(Clone, Copy, Debug, PartialEq, Eq)]
pub enum Command {
    /// Publishes an object.
    Put,
    /// Publishes a blueprint.
    Blueprint,
    /// Links an image.
    Link,
    /// Lists the places of a path.
    Where,
    /// Tells the server's counts.
    Stats,
    /// Takes a path's image out of the cache.
    Flush,
}

/// What the words ask for: a command, with the path that is sent as it stands, and the file that
/// is read or written. Both are empty where the command has none.
#[derive(Clone, Copy, Debug)]
pub struct Errand<'a> {
    pub command: Command,
    pub path: &'a str,
    pub file: &'a str,
}

/// A path of at most 2,000 bytes is sent.
fn is_sent(path: &str) -> bool
    ensures { result ≡ is_sent path.now }
{
    path.len() <= 2000
}

/// The command of a path and a file.
fn file_command(word: &str) -> Option<Command>
    ensures { result ≡ file_command word.now }
{
    if word == "put" {
        Some(Command::Put)
    } else if word == "blueprint" {
        Some(Command::Blueprint)
    } else if word == "link" {
        Some(Command::Link)
    } else {
        None
    }
}

/// The command of a path.
fn path_command(word: &str) -> Option<Command>
    ensures { result ≡ path_command word.now }
{
    if word == "where" {
        Some(Command::Where)
    } else if word == "flush" {
        Some(Command::Flush)
    } else {
        None
    }
}

/// The command that stands alone.
fn alone_command(word: &str) -> Option<Command>
    ensures { result ≡ alone_command word.now }
{
    if word == "stats" {
        Some(Command::Stats)
    } else {
        None
    }
}

/// `COMMAND PATH FILE`.
fn with_file<'a>(word: &str, path: &'a str, file: &'a str) -> Option<Errand<'a>>
    ensures asked { option_map asked_of result ≡ with_file word.now path.now file.now }
    ensures short { IfSome result (λ e. length (asked_of e).path ≤ 2000) }
{
    let command = file_command(word)?;
    if is_sent(path) {
        Some(Errand {
            command,
            path,
            file,
        })
    } else {
        None
    }
}

/// `COMMAND PATH`.
fn with_path<'a>(word: &str, path: &'a str) -> Option<Errand<'a>>
    ensures asked { option_map asked_of result ≡ asked_of_path word.now path.now }
    ensures short { IfSome result (λ e. length (asked_of e).path ≤ 2000) }
{
    let command = path_command(word)?;
    if is_sent(path) {
        Some(Errand {
            command,
            path,
            file: "",
        })
    } else {
        None
    }
}

/// `COMMAND`.
fn alone<'a>(word: &str) -> Option<Errand<'a>>
    ensures asked { option_map asked_of result ≡ lone_word word.now }
    ensures short { IfSome result (λ e. length (asked_of e).path ≤ 2000) }
{
    let command = alone_command(word)?;
    Some(Errand {
        command,
        path: "",
        file: "",
    })
}

/// What the words ask for, whose first is the server's socket. None where they ask for nothing.
pub fn errand_of(words: &[String]) -> Option<Errand<'_>>
    ensures asked { option_map asked_of result ≡ asked_by (map string_bytes words.now) }
    ensures short { IfSome result (λ e. length (asked_of e).path ≤ 2000) }
{
    if words.len() == 4 {
        with_file(&words[1], &words[2], &words[3])
    } else if words.len() == 3 {
        with_path(&words[1], &words[2])
    } else if words.len() == 2 {
        alone(&words[1])
    } else {
        None
    }
}
