//! Which arguments are options.
ghost use Rattle.std.specs.Prelude.{◌≡◌, ◌++◌, find, option_map, string_bytes};
ghost use Rattle.command_line.specs.Words.{texts, is_option, asks_for_help, is_unknown_option, is_version};
ghost use Rattle.command_line.specs.Commands.{asks_for_version, is_input, named, named_later, names_input, other_words, takes_option};

/// Returns `true` if the only argument asks for the version.
pub fn asks_for_version(words: &[String]) -> bool
    ensures { result ≡ asks_for_version (texts words.now) }
{
    match words {
        [word] => is_version(word),
        _ => false,
    }
}

/// Returns the arguments without a command and its option directly after it.
pub fn other_words(words: &[String]) -> &[String]
    ensures { texts result.now ≡ other_words (texts words.now) }
{
    match words {
        [command, option, rest @ ..] if takes_option(command, option) => rest,
        _ => words,
    }
}

fn takes_option(command: &str, option: &str) -> bool
    ensures { result ≡ takes_option command.now option.now }
{
    match command {
        "index" | "scan" => option == "--types",
        "get" => option == "--length",
        _ => false,
    }
}

/// A name of standard input, and the arguments beside it.
#[derive(Drop)]
pub struct NamedInput<'a> {
    pub name: &'a String,
    /// The arguments before `--name`.
    pub before: &'a [String],
    /// The arguments after the name.
    pub after: &'a [String],
}

/// Returns the name that `--name` gives to standard input, directly after a command or after its option and a text.
pub fn named(words: &[String]) -> Option<NamedInput<'_>>
    ensures { option_map (λ n. (string_bytes n.name.now, texts n.before.now ++ texts n.after.now))
        result ≡ named (texts words.now) }
{
    match words {
        [command, option, name, after @ ..] if names_input(command, option, name) => {
            let before = &words[..1];
            Some(NamedInput {
                name,
                before,
                after,
            })
        }
        _ => named_later(words),
    }
}

/// The same after a command, its option and a text.
fn named_later(words: &[String]) -> Option<NamedInput<'_>>
    ensures { option_map (λ n. (string_bytes n.name.now, texts n.before.now ++ texts n.after.now))
        result ≡ named_later (texts words.now) }
{
    match words {
        [command, option, _text, second, name, after @ ..]
            if takes_option(command, option) && names_input(command, second, name) => {
            let before = &words[..3];
            Some(NamedInput {
                name,
                before,
                after,
            })
        }
        _ => None,
    }
}

fn names_input(command: &str, option: &str, name: &str) -> bool
    ensures { result ≡ names_input command.now option.now name.now }
{
    takes_option(command, "--types") && option == "--name" && !is_option(name.as_bytes())
}

/// Returns the first name that is standard input.
pub fn input_of(names: &[String]) -> Option<&String>
    ensures { option_map (λ name. string_bytes name.now) result ≡ find is_input (texts names.now) }
{
    names.iter().find(|name| is_input(name))
}

fn is_input(name: &str) -> bool
    ensures { result ≡ is_input name.now }
{
    name == "-"
}

/// Returns the first argument that begins with `-`, except `-` alone and arguments that ask for help.
pub fn unknown_option(words: &[String]) -> Option<&String>
    ensures { option_map (λ word. string_bytes word.now) result
        ≡ find is_unknown_option (texts words.now) }
{
    words.iter().find(|word| is_unknown_option(word))
}

/// Returns the first argument that asks for help.
pub fn help_option(words: &[String]) -> Option<&String>
    ensures { option_map (λ word. string_bytes word.now) result
        ≡ find asks_for_help (texts words.now) }
{
    words.iter().find(|word| asks_for_help(word))
}

fn is_unknown_option(word: &str) -> bool
    ensures { result ≡ is_unknown_option word.now }
{
    is_option(word.as_bytes()) && !asks_for_help(word)
}

fn is_option(word: &[u8]) -> bool
    ensures { result ≡ is_option word.now }
{
    match word {
        [first, _, ..] => *first == b'-',
        _ => false,
    }
}

fn asks_for_help(word: &str) -> bool
    ensures { result ≡ asks_for_help word.now }
{
    word == "-h" || word == "--help"
}

fn is_version(word: &str) -> bool
    ensures { result ≡ is_version word.now }
{
    word == "-V" || word == "--version"
}
