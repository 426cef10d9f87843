// What the words of the command line ask for.
ghost use Rattle.std.specs.Prelude.{◌≡◌};
ghost use Rattle.std.specs.Fmt.{decimal};
ghost use Rattle.std.specs.Option.{option_map};
ghost use Rattle.prod_model.specs.Names.{same_text};
ghost use Rattle.config_cli.specs.Runs.{texts};
ghost use Rattle.config_cli.specs.steps.Words.{command_in, is_workers, shown};

use itoa::Buffer;

/// The greatest number of workers.
const MOST_WORKERS: u32 = 64;

/// What the words ask for, by the names of files.
#[derive(Clone, Copy, Debug, PartialEq, Eq)]
pub enum Command<'a> {
    /// To configure a product.
    Configure {
        model: &'a str,
        order: &'a str,
    },
    /// To check an answer.
    Check {
        model: &'a str,
        order: &'a str,
        answer: &'a str,
    },
}

/// The command, where the words are one of the accepted forms.
pub fn command_in(words: &[String]) -> Option<Command<'_>>
    ensures { option_map shown result ≡ command_in (texts words.now) }
{
    match words {
        [command, model, order] if command.as_str() == "configure" => Some(Command::Configure {
            model: model.as_str(),
            order: order.as_str(),
        }),
        [command, model, order, answer] if command.as_str() == "check" => Some(Command::Check {
            model: model.as_str(),
            order: order.as_str(),
            answer: answer.as_str(),
        }),
        [command, model, order, option, workers]
            if command.as_str() == "configure"
                && option.as_str() == "--workers"
                && is_workers(workers.as_str()) => Some(Command::Configure {
            model: model.as_str(),
            order: order.as_str(),
        }),
        _ => None,
    }
}

/// Whether the word is a number of workers.
fn is_workers(word: &str) -> bool
    ensures { result ≡ is_workers word.now }
{
    (1..MOST_WORKERS + 1).any(|number| is_decimal(number, word))
}

/// Whether the word is the number in decimal digits.
fn is_decimal(number: u32, word: &str) -> bool
    ensures { result ≡ same_text (decimal number) word.now }
{
    let mut buffer = Buffer::new();
    buffer.format(number) == word
}
