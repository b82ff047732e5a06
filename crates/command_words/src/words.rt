// The words of the command line.
ghost use Rattle.std.specs.Prelude.{◌≡◌, [], ◌∷◌, ◌<◌, None, IfSome, length};
ghost use Rattle.std.specs.Prelude.{map as map_list, string_bytes};
ghost use Rattle.std.specs.Option.{option_map, option_and_then};
ghost use Rattle.std.specs.Str.{bytes_eq};
ghost use Rattle.command_words.specs.Words.{asked_by, check_by, command_by, command_of, cut_at_equals, is_value};
ghost use Rattle.command_words.specs.Words.{no_options, number_to, options, plain_by};
ghost use Rattle.command_words.specs.Words.{with_cycles, with_option, with_recipe, with_workers};
ghost use Rattle.command_words.specs.Asking.{asked_told, command_told};
ghost use Rattle.command_words.specs.Taken.{options_told};

use itoa::Buffer;

const MOST_WORKERS: u32 = 64;

const MOST_CYCLES: u32 = 10;

const USUAL_CYCLES: u32 = 3;

/// What a run is asked: the recipe's name, and how many cycles there may be.
#[derive(Clone, Copy, Debug)]
pub struct Asked<'w> {
    pub recipe: &'w [u8],
    pub cycles: u32,
}

/// What the words ask for.
#[derive(Clone, Copy, Debug)]
pub enum Command<'w> {
    /// `run`: a recipe is applied.
    Apply(Asked<'w>),
    /// `dry`: it is told what `run` would do.
    Dry(Asked<'w>),
    /// `check`: all files are read.
    Check,
    /// `recover`: the writes of a run that was cut off are finished.
    Recover,
    /// `history`: the runs that there were are told.
    History,
}

// The options of a command.
#[derive(Clone, Copy, Debug)]
struct Options<'w> {
    recipe: Option<&'w [u8]>,
    workers: Option<u32>,
    cycles: Option<u32>,
}

fn is_same(a: &[u8], b: &[u8]) -> bool
    ensures { result ≡ bytes_eq a.now b.now }
{
    a == b
}

#[tactic(auto, unfolding(crate::specs::Words::is_value))]
fn is_value(text: &[u8]) -> bool
    ensures { result ≡ is_value text.now }
{
    match text {
        [] => false,
        [first, ..] => *first != b'-',
    }
}

// The number from 1 to the most that a word writes in decimal.
#[tactic(auto, using(crate::proofs::WordSteps::counting))]
fn number_to(most: u32, word: &[u8]) -> Option<u32>
    ensures { result ≡ number_to most word.now }
{
    let mut number = most;
    while number > 0 {
        let mut buffer = Buffer::new();
        if is_same(word, buffer.format(number).as_bytes()) {
            return Some(number);
        }
        number -= 1;
    }
    None
}

impl<'w> Options<'w> {
    #[tactic(auto, unfolding(crate::specs::Words::no_options))]
    fn none() -> Options<'w>
        ensures { options_told result ≡ no_options }
    {
        Options {
            recipe: None,
            workers: None,
            cycles: None,
        }
    }

    #[tactic(auto, unfolding(crate::specs::Words::with_recipe))]
    fn with_recipe(self, value: &'w [u8]) -> Option<Options<'w>>
        ensures { option_map options_told result ≡ with_recipe value.now (options_told self.entry) }
    {
        if self.recipe.is_none() && is_value(value) {
            Some(Options {
                recipe: Some(value),
                workers: self.workers,
                cycles: self.cycles,
            })
        } else {
            None
        }
    }

    #[tactic(auto, unfolding(crate::specs::Words::with_workers))]
    fn with_workers(self, number: Option<u32>) -> Option<Options<'w>>
        ensures { option_map options_told result ≡ with_workers number (options_told self.entry) }
    {
        if self.workers.is_none() && number.is_some() {
            Some(Options {
                recipe: self.recipe,
                workers: number,
                cycles: self.cycles,
            })
        } else {
            None
        }
    }

    #[tactic(auto, unfolding(crate::specs::Words::with_cycles))]
    fn with_cycles(self, number: Option<u32>) -> Option<Options<'w>>
        ensures { option_map options_told result ≡ with_cycles number (options_told self.entry) }
    {
        if self.cycles.is_none() && number.is_some() {
            Some(Options {
                recipe: self.recipe,
                workers: self.workers,
                cycles: number,
            })
        } else {
            None
        }
    }

    // These options and one more.
    #[tactic(auto, unfolding(crate::specs::Words::with_option))]
    fn with(self, name: &[u8], value: &'w [u8]) -> Option<Options<'w>>
        ensures { option_map options_told result ≡ with_option name.now value.now (options_told self.entry) }
    {
        if is_same(name, b"--recipe") {
            self.with_recipe(value)
        } else if is_same(name, b"--workers") {
            self.with_workers(number_to(MOST_WORKERS, value))
        } else if is_same(name, b"--cycles") {
            self.with_cycles(number_to(MOST_CYCLES, value))
        } else {
            None
        }
    }

    #[tactic(auto, unfolding(crate::specs::Words::asked_by))]
    fn asked(self) -> Option<Asked<'w>>
        ensures { option_map asked_told result ≡ asked_by (options_told self.entry) }
    {
        let Some(recipe) = self.recipe else {
            return None;
        };
        let cycles = match self.cycles {
            Some(cycles) => cycles,
            None => USUAL_CYCLES,
        };
        Some(Asked { recipe, cycles })
    }

    #[tactic(auto, unfolding(crate::specs::Words::check_by))]
    fn check(self) -> Option<Command<'w>>
        ensures { option_map command_told result ≡ check_by (options_told self.entry) }
    {
        if self.recipe.is_none() && self.cycles.is_none() {
            Some(Command::Check)
        } else {
            None
        }
    }

    // This command, which has no option.
    #[tactic(auto, unfolding(crate::specs::Words::plain_by))]
    fn plain(self, command: Command<'w>) -> Option<Command<'w>>
        ensures { option_map command_told result ≡ plain_by (command_told command.entry) (options_told self.entry) }
    {
        if self.recipe.is_none() && self.workers.is_none() && self.cycles.is_none() {
            Some(command)
        } else {
            None
        }
    }

    #[tactic(auto, unfolding(crate::specs::Words::command_by))]
    fn command(self, name: &[u8]) -> Option<Command<'w>>
        ensures { option_map command_told result ≡ command_by name.now (options_told self.entry) }
    {
        if is_same(name, b"run") {
            Some(Command::Apply(self.asked()?))
        } else if is_same(name, b"dry") {
            Some(Command::Dry(self.asked()?))
        } else if is_same(name, b"check") {
            self.check()
        } else if is_same(name, b"recover") {
            self.plain(Command::Recover)
        } else if is_same(name, b"history") {
            self.plain(Command::History)
        } else {
            None
        }
    }
}

// What stands before and behind the first `=` of a word.
#[tactic(auto, using(crate::proofs::WordSteps::cutting))]
fn cut_at_equals(word: &[u8]) -> Option<(&[u8], &[u8])>
    ensures { option_map (λ p. (p.0.now, p.1.now)) result ≡ cut_at_equals word.now }
{
    for at in 0..word.len() {
        if word[at] == b'=' {
            return Some((&word[..at], &word[at + 1..]));
        }
    }
    None
}

// The first word and the others.
#[tactic(auto, using(crate::proofs::WordSteps::splitting))]
fn first_of(words: &[String]) -> Option<(&[u8], &[String])>
    ensures first { IfSome result (λ p.
        map_list string_bytes words.now ≡ p.0.now ∷ map_list string_bytes p.1.now) }
    ensures none { result ≡ None → map_list string_bytes words.now ≡ [] }
    ensures shorter { IfSome result (λ p. length p.1.now < length words.now) }
{
    if words.is_empty() {
        return None;
    }
    Some((words[0].as_bytes(), &words[1..]))
}

// The options that these words give, besides those that were taken.
#[tactic(auto, using(crate::proofs::WordSteps::taking))]
fn options_from<'w>(words: &'w [String], taken: Options<'w>) -> Option<Options<'w>>
    ensures { option_map options_told result ≡ options (map_list string_bytes words.now) (options_told taken.entry) }
{
    let Some((word, rest)) = first_of(words) else {
        return Some(taken);
    };
    match cut_at_equals(word) {
        Some((name, value)) => match taken.with(name, value) {
            Some(more) => options_from(rest, more),
            None => None,
        },
        None => match first_of(rest) {
            Some((value, rest)) => match taken.with(word, value) {
                Some(more) => options_from(rest, more),
                None => None,
            },
            None => None,
        },
    }
}

/// What the words ask for, if they are those of a command. Takes no memory.
#[tactic(auto, using(crate::proofs::WordSteps::commands))]
pub fn command_of<'w>(words: &'w [String]) -> Option<Command<'w>>
    ensures { option_map command_told result ≡ command_of (map_list string_bytes words.now) }
{
    let Some((name, rest)) = first_of(words) else {
        return None;
    };
    match options_from(rest, Options::none()) {
        Some(options) => options.command(name),
        None => None,
    }
}
