//! The words of a command line, and the command that they ask for.
//!
//! The first word is the name of a command. Of the words after it, up to the first that is `--`, one that is longer
//! than one byte and begins with `-` is an option, and each other word is a positional. After that `--` every word is
//! a positional, a second `--` too. The only option is `--turns`: its value is what follows `=` in `--turns=N`, or
//! else the next word, whatever that word is. It may stand anywhere after the name and before `--`.
//!
//! | command | positionals | options |
//! |---|---|---|
//! | `show`, `compile`, `tune` | GRAPH | |
//! | `check` | GRAPH PACK | |
//! | `play` | GRAPH PACK SCENARIO | `--turns N`, exactly once |
//! | `node` | PACK NAME | |
//! | `trial` | N | |
//! | `live` | PACK NAME STREAM | |
//! | `hyper` | N GRAPH, one to four times | |
//! | `audit` | GRAPH PACK LOG | |
//!
//! A command has exactly these positionals and options. N is 1 to 20 decimal digits, with no sign, of a number below
//! 2^64; it may begin with zeros. Names aren't shortened, and there is no help and no version. Every other list of
//! words has no form, and is [`WordsFault::Bad`].
//!
//! `clap` reads the words. It knows one level of subcommands without help and version, and two arguments for
//! each: any number of positionals, and any number of values of `--turns`, all of them texts. So neither its defaults
//! nor its counts decide anything. It refuses an unknown name, another option, and `--turns` with no next word. It also
//! refuses `--` or an option in place of the next word; by the rule that word is the value, and it's no N. How many
//! positionals and values a command has, and which number a text writes, is then tested here.
#![tactic(auto)]

mod command;
mod fault;
mod forms;
mod line;
mod number;
mod reading;
mod word;

pub use command::{Command, Pair, Pairs};
pub use fault::WordsFault;
pub use reading::read_words;
pub use word::Word;
