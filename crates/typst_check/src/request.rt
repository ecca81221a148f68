//! What the words ask for.

use clap::error::ErrorKind;
use clap::{Arg, ArgAction, Command, Error, value_parser};
use std::alloc::{AllocError, Global};
use typst_report::form::{Form, Format, Options};

/// What the words ask for.
#[derive(Drop)]
pub struct Request<'a> {
    pub options: Options,
    /// Whether what is found is printed as a log of SARIF.
    pub is_log: bool,
    /// The name that the text on standard input has.
    pub input_name: &'a str,
    /// The names of files and folders.
    pub names: Vec<&'a str>,
    /// The name of a file with more names.
    pub list: Option<&'a str>,
}

/// An option of the program.
struct CommandOption {
    name: &'static str,
    short: Option<char>,
    help: &'static str,
    takes: Takes,
}

/// What an option takes.
enum Takes {
    /// One of these words, and which it is if the option isn't given.
    Word(&'static [&'static str], &'static str),
    /// A number, which help calls so.
    Number(&'static str),
    /// A text, which help calls so.
    Text(&'static str),
    /// Nothing. It isn't given with any of these other options.
    Nothing(&'static [&'static str]),
}

static OPTIONS: [CommandOption; 9] = [
    CommandOption {
        name: "format",
        short: None,
        help: "How errors and warnings are printed",
        takes: Takes::Word(&["short", "ndjson", "github", "sarif"], "short"),
    },
    CommandOption {
        name: "color",
        short: None,
        help: "Whether the short format has colours. A terminal isn't known as one, so auto is never",
        takes: Takes::Word(&["auto", "always", "never"], "auto"),
    },
    CommandOption {
        name: "tree",
        short: None,
        help: "Prints the syntax tree, a JSON object a line for each node",
        takes: Takes::Nothing(&["format", "color", "max-errors"]),
    },
    CommandOption {
        name: "page",
        short: None,
        help: "Prints the text of one file as an HTML page, highlighted, with its errors",
        takes: Takes::Nothing(&["tree", "format", "color", "max-errors", "files-from"]),
    },
    CommandOption {
        name: "quiet",
        short: Some('q'),
        help: "Prints no errors and warnings: the status tells of them",
        takes: Takes::Nothing(&["tree", "page"]),
    },
    CommandOption {
        name: "max-errors",
        short: None,
        help: "Prints at most so many errors and warnings of each file",
        takes: Takes::Number("N"),
    },
    CommandOption {
        name: "deny-warnings",
        short: None,
        help: "Ends with status 1 for warnings, too",
        takes: Takes::Nothing(&[]),
    },
    CommandOption {
        name: "stdin-filename",
        short: None,
        help: "The name that is printed for standard input",
        takes: Takes::Text("NAME"),
    },
    CommandOption {
        name: "files-from",
        short: None,
        help: "A file with names of files, ended by NUL or newlines, or - for standard input",
        takes: Takes::Text("LIST"),
    },
];

/// The version of Typst whose grammar this is.
pub const VERSION: &str = "0.15.1";

const ABOUT: &str = "Checks files of Typst and prints their errors and warnings.";

const STATUS: &str =
    "Ends with status 0 where no file has an error, with 1 where one has, and with 2 for other words\nand where a file can't be read; the other files are still checked.";

impl<'a> Request<'a> {
    /// What the words ask for. The first is the program's name.
    pub fn from_words(alloc: Global, words: &'a [&'a str]) -> Result<Request<'a>, Error> {
        let matches = command(alloc)?.try_get_matches_from(words)?;
        let format = matches.get_str("format");
        let color = matches.get_str("color") == Some("always");
        let form = if matches.get_flag("tree") {
            Form::Tree
        } else if matches.get_flag("page") {
            Form::Page
        } else if matches.get_flag("quiet") {
            Form::Nothing
        } else {
            Form::Findings(format_named(format, color))
        };
        let is_log = format == Some("sarif") && form != Form::Nothing;
        let mut names = Vec::new(alloc);
        if let Some(files) = matches.get_strs("files") {
            for file in files {
                names.push(*file)?;
            }
        }
        if form == Form::Page && names.len() > 1 {
            return Err(command(alloc)?.error(
                ErrorKind::TooManyValues,
                "--page takes one file: a page shows one text",
            )?);
        }
        Ok(Request {
            options: Options {
                form,
                most: matches.get_one::<usize>("max-errors"),
                denies_warnings: matches.get_flag("deny-warnings"),
            },
            is_log,
            input_name: matches.get_str("stdin-filename").unwrap_or("<stdin>"),
            names,
            list: matches.get_str("files-from"),
        })
    }
}

/// The format of a name; a log is made of the lines of another. Whether the output is a terminal isn't known, so
/// there are colours only if they are asked for.
fn format_named(name: Option<&str>, color: bool) -> Format {
    match name {
        Some("ndjson" | "sarif") => Format::Ndjson,
        Some("github") => Format::Github,
        _ => Format::Short { color },
    }
}

/// The command line of the program.
fn command<'a>(alloc: Global) -> Result<Command<'a>, AllocError> {
    let mut command = Command::new(alloc, "typst_check")
        .version(VERSION)
        .about(ABOUT)
        .after_help(STATUS);
    for option in &OPTIONS {
        command = command.arg(argument(alloc, option)?)?;
    }
    let files = Arg::new(alloc, "files")
        .action(ArgAction::Append)
        .value_name("FILE")
        .help("Files to check, folders of which all *.typ below are, or - for standard input")
        .required_unless_present("files-from")?;
    command.arg(files)
}

/// The argument of an option. Of an option that is repeated the last counts.
fn argument<'a>(alloc: Global, option: &CommandOption) -> Result<Arg<'a>, AllocError> {
    let mut argument = Arg::new(alloc, option.name)
        .long(option.name)
        .help(option.help);
    if let Some(short) = option.short {
        argument = argument.short(short);
    }
    let argument = match option.takes {
        Takes::Word(words, default) => argument.value_parser(words).default_value(default),
        Takes::Number(name) => argument.value_name(name).value_parser(value_parser!(usize)),
        Takes::Text(name) => argument.value_name(name),
        Takes::Nothing(others) => argument
            .action(ArgAction::SetTrue)
            .conflicts_with_all(others)?,
    };
    argument.overrides_with(option.name)
}
