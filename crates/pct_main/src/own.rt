//! The options of the program itself, apart from those of its commands.

ghost use Rattle.std.specs.Prelude.{◌≡◌, map};
ghost use Rattle.std.specs.Option.{option_map};
ghost use Rattle.pct_outside.specs.Reading.{texts_of};
ghost use Rattle.pct_main.specs.Own as own;

use crate::explanations::EXPLANATIONS;

/// What `pct --help` answers.
const HELP: &str = "\
pct runs a test script of threads under one order of their priorities, and prints the run's trace,
its data races, its lock order or a directive for its failure; or it runs a script under the
priorities of many seeds and ranks the failures; or under all orders and change points that a seed
could draw, and counts them; or it replays a trace; or it runs a directive under one order, or under
all orders with its lowest thread last, and certifies it.

usage: pct run FILE --order NAMES [--points STEPS] [--limit STEPS]
       pct run FILE --seed NUMBER --depth DEPTH [--steps STEPS] [--limit STEPS]
       pct races FILE ..   pct locks FILE ..   pct find FILE ..   (the options of run)
       pct campaign FILE --from NUMBER --count RUNS --depth DEPTH [--steps STEPS] [--limit STEPS]
           [--form text|json] [--serve caller|threads]
       pct sweep FILE --depth DEPTH [--steps STEPS] [--limit STEPS] [--form text|json]
           [--serve caller|threads]
       pct replay FILE TRACE
       pct expose FILE DIRECTIVE --order NAMES --steps STEPS [--limit STEPS]
       pct certify FILE DIRECTIVE --steps STEPS [--limit STEPS] [--serve caller|threads]
       pct big PIECES [--serve caller|threads]
       pct --help
       pct --version
       pct --explain WORD

FILE is the script. NAMES are all its threads, joined by commas, the highest priority first, and
the points are the numbers of the steps after which the thread that took the step is lowered. A
seed draws the order and the points, one less of them than the depth. A run has at most as many
steps as its limit, 10000 where none is given. A campaign runs that number of seeds from the first
one on; big does so with a large script of its own, and sweep runs every order with every list of
points among the steps. A directive is what find prints; expose prints the trace of its run, and
certify whether each order leads to its verdict within these steps. With --serve caller one thread
makes all runs, and what is printed is the same; taskset -c 0 before pct pins any call to one
processor. Beside other work either may make a campaign many times faster.
The status is 0 where each run passes, there are no races, there is a lock order, the trace is
confirmed, what is exposed has the directive's verdict or the directive is certified, 1 where not,
2 for a word that isn't taken, 3, 4 and 5 for files that are no script, no trace and no directive,
6 and 7 for files and output that can't be read or written, and 8 where there is no memory.

WORD is one of those below, as the program prints it. What --explain says of it is what it means,
what it usually comes from and what mends it.
  of a script      NotUtf8 LineTooLong TooManyLines BadHeader BadToken BadStatement UnknownName
                   TwiceNamed NumberRange NoEnd StrayEnd NoThread TooMany
  of other files   TooLong BadHeader BadLine UnknownName OutOfOrder NoVerdict MoreAfterVerdict
  of a verdict     passed failed stuck misuse fault cut
  of a misuse      notowner semfull alreadystarted toomanyreads
  of a fault       overflow zerodivisor spin
  of the status    0 1 2 3 4 5 6 7 8
";

/// What `pct --explain` answers of a word that it doesn't know.
const UNKNOWN: &str = "\
This is no word that pct prints. These are, and --explain says what each of them means:
  of a script      NotUtf8 LineTooLong TooManyLines BadHeader BadToken BadStatement UnknownName
                   TwiceNamed NumberRange NoEnd StrayEnd NoThread TooMany
  of other files   TooLong BadHeader BadLine UnknownName OutOfOrder NoVerdict MoreAfterVerdict
  of a verdict     passed failed stuck misuse fault cut
  of a misuse      notowner semfull alreadystarted toomanyreads
  of a fault       overflow zerodivisor spin
  of the status    0 1 2 3 4 5 6 7 8
";

/// What `pct --version` answers.
const VERSION: &str = "pct 0.2.0\n";

/// An option that the program answers by itself.
#[derive(Clone, Copy, Debug, PartialEq, Eq)]
pub enum Own {
    Help,
    Version,
    /// What a word means that the program prints.
    Explanation(&'static str),
    /// The words that it prints, where another one is asked for.
    UnknownWord,
}

impl Own {
    /// The option that the words are: one word, or `--explain` and another one.
    pub fn of_words(words: &[String]) -> Option<Own>
        ensures { option_map own.option_text result ≡ own.answer_to (texts_of words.now) }
    {
        match words {
            [word] if word.as_str() == "--help" => Some(Own::Help),
            [word] if word.as_str() == "--version" => Some(Own::Version),
            [option, word] if option.as_str() == "--explain" => {
                Some(match explanation_of(word.as_str()) {
                    Some(text) => Own::Explanation(text),
                    None => Own::UnknownWord,
                })
            }
            _ => None,
        }
    }

    pub fn text(self) -> &'static str
        ensures { result.now ≡ own.option_text self }
    {
        match self {
            Own::Help => HELP,
            Own::Version => VERSION,
            Own::Explanation(text) => text,
            Own::UnknownWord => UNKNOWN,
        }
    }
}

fn explanation_of(word: &str) -> Option<&'static str>
    ensures { option_map (λ text. text.now) result ≡ own.explanation_of word.now }
{
    text_among(EXPLANATIONS, word)
}

/// The text beside the word's first place in the table.
fn text_among(entries: &[(&str, &'static str)], word: &str) -> Option<&'static str>
    ensures { option_map (λ text. text.now) result
        ≡ own.text_among (map (λ e. (e.0.now, e.1.now)) entries.now) word.now }
{
    let entry = entries.iter().find(|entry| entry.0 == word)?;
    Some(entry.1)
}
