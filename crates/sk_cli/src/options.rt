//! The options of a command: names with a value, and flags, in any order, each at most once.

ghost use Rattle.std.specs.Prelude.{◌+◌, ◌^◌, ◌≡◌, ◌↔◌, All, IsTrue, IfSome, IfNone, Some, None, ◌<◌, ◌≤◌, length, drop, option_copied, option_map, is_some, IsSome, ◌∷◌};
ghost use Rattle.sk_model.specs.Limits.{IsFrom, least_k, most_k, most_size, most_updaters};
ghost use Rattle.sk_fill.specs.Windows.{most_lines};
ghost use Rattle.sk_cli.specs.Beside.{board_places};
ghost use Rattle.sk_cli.specs.Options.{name_of, takes_value, allows, options_of, texts_of, is_once, value_behind, given_in, spelled_by, is_given, number_in, required_in, is_yes_in, word_in, column_by, k_by, size_by, seed_by, updaters_by, sizes_by, window_by, eager_by, propagator_by, alarms_by};

use crate::values::{number_from, number_list, yes_or_no};
use sk_model::limits::{LEAST_K, MOST_K, MOST_SIZE, MOST_UPDATERS};
use sk_report::Numbers;
use std::marker::Model;

// The greatest mark of an alarm.
const MOST_MARK: u64 = (1 << 48) - 1;

/// A command that takes options.
#[derive(Clone, Copy, Debug, PartialEq, Eq)]
pub enum Verb {
    Count,
    Hash,
    Image,
    Join,
    Make,
    Quantile,
    Replay,
    Serve,
    Tally,
    Tenants,
    Window,
}

/// The name of an option.
#[derive(Clone, Copy, Debug, PartialEq, Eq)]
pub enum Name {
    Alarm,
    AsImage,
    At,
    B,
    Csv,
    Eager,
    File,
    Item,
    K,
    Key,
    Last,
    Left,
    N,
    Port,
    Propagator,
    Raw,
    Right,
    Rows,
    Seed,
    Sessions,
    Span,
    TenantNames,
    Updaters,
    Wave,
    Width,
    Window,
}

impl Name {
    /// The option that a word names.
    pub fn of(word: &str) -> Option<Name>
        ensures { result ≡ name_of word.now }
    {
        match word {
            "--alarm" => Some(Name::Alarm),
            "--at" => Some(Name::At),
            "--b" => Some(Name::B),
            "--csv" => Some(Name::Csv),
            "--eager" => Some(Name::Eager),
            "--file" => Some(Name::File),
            "--image" => Some(Name::AsImage),
            "--item" => Some(Name::Item),
            "--k" => Some(Name::K),
            "--key" => Some(Name::Key),
            "--last" => Some(Name::Last),
            "--left" => Some(Name::Left),
            "--n" => Some(Name::N),
            "--names" => Some(Name::TenantNames),
            "--port" => Some(Name::Port),
            "--propagator" => Some(Name::Propagator),
            "--raw" => Some(Name::Raw),
            "--right" => Some(Name::Right),
            "--rows" => Some(Name::Rows),
            "--seed" => Some(Name::Seed),
            "--sessions" => Some(Name::Sessions),
            "--span" => Some(Name::Span),
            "--updaters" => Some(Name::Updaters),
            "--wave" => Some(Name::Wave),
            "--width" => Some(Name::Width),
            "--window" => Some(Name::Window),
            _ => None,
        }
    }

    // Whether a value follows it.
    fn takes_value(self) -> bool
        ensures { result ≡ takes_value self }
    {
        self != Name::Raw && self != Name::AsImage
    }

    // Whether it is an option of a count.
    fn is_of_count(self) -> bool
        ensures { result ≡ allows Verb.Count self }
    {
        match self {
            Name::Alarm | Name::B | Name::Csv | Name::Eager | Name::File | Name::K => true,
            Name::Propagator | Name::Raw | Name::Seed | Name::Updaters | Name::Window => true,
            _ => false,
        }
    }

    // Whether it is an option of an image that is made.
    fn is_of_image(self) -> bool
        ensures { result ≡ allows Verb.Image self }
    {
        match self {
            Name::Csv | Name::File | Name::K | Name::Raw | Name::Seed => true,
            _ => false,
        }
    }

    // Whether it is an option of a count of made lines.
    fn is_of_make(self) -> bool
        ensures { result ≡ allows Verb.Make self }
    {
        match self {
            Name::B | Name::K | Name::Key | Name::N | Name::Propagator | Name::Updaters => true,
            _ => false,
        }
    }

    // Whether it is an option of a rank.
    fn is_of_quantile(self) -> bool
        ensures { result ≡ allows Verb.Quantile self }
    {
        match self {
            Name::At | Name::B | Name::File | Name::K | Name::Key => true,
            Name::Propagator | Name::Updaters | Name::Window => true,
            _ => false,
        }
    }

    // Whether it is an option of a server.
    fn is_of_serve(self) -> bool
        ensures { result ≡ allows Verb.Serve self }
    {
        match self {
            Name::Alarm | Name::B | Name::Eager | Name::K => true,
            Name::Port | Name::Seed | Name::Sessions | Name::Wave => true,
            _ => false,
        }
    }

    // Whether it is an option of a tally.
    fn is_of_tally(self) -> bool
        ensures { result ≡ allows Verb.Tally self }
    {
        match self {
            Name::B | Name::Csv | Name::File | Name::Item | Name::Propagator => true,
            Name::Rows | Name::Seed | Name::Updaters | Name::Width | Name::Window => true,
            _ => false,
        }
    }

    // Whether it is an option of tenants.
    fn is_of_tenants(self) -> bool
        ensures { result ≡ allows Verb.Tenants self }
    {
        match self {
            Name::B | Name::File | Name::K => true,
            Name::Seed | Name::TenantNames | Name::Updaters => true,
            _ => false,
        }
    }

    // Whether it is an option of intervals.
    fn is_of_window(self) -> bool
        ensures { result ≡ allows Verb.Window self }
    {
        match self {
            Name::B | Name::File | Name::K | Name::Last | Name::Seed | Name::Span => true,
            _ => false,
        }
    }
}

impl Verb {
    // Whether the command has this option.
    fn allows(self, name: Name) -> bool
        ensures { result ≡ allows self name }
    {
        match self {
            Verb::Count => name.is_of_count(),
            Verb::Hash => name == Name::File || name == Name::Seed,
            Verb::Image => name.is_of_image(),
            Verb::Join => name == Name::AsImage || name == Name::Left || name == Name::Right,
            Verb::Make => name.is_of_make(),
            Verb::Quantile => name.is_of_quantile(),
            Verb::Replay => name == Name::File,
            Verb::Serve => name.is_of_serve(),
            Verb::Tally => name.is_of_tally(),
            Verb::Tenants => name.is_of_tenants(),
            Verb::Window => name.is_of_window(),
        }
    }
}

// The first option of some words: its name, its value, empty for a flag, and the words after it.
#[tactic(auto, unfolding(crate::specs::Options::options_of))]
fn first_option<'a>(verb: Verb, words: &'a [String]) -> Option<(Name, &'a str, &'a [String])>
    requires { 0 < length words.now }
    ensures spelled { IfSome result (λ first. options_of verb (texts_of words.now)
        ≡ option_map (λ given. (first.0, first.1.now) ∷ given) (options_of verb (texts_of first.2.now))) }
    ensures fewer { IfSome result (λ first. length first.2.now < length words.now) }
    ensures none { IfNone result (options_of verb (texts_of words.now) ≡ None) }
{
    let (word, behind) = words.split_first()?;
    let name = Name::of(word)?;
    if !verb.allows(name) {
        return None;
    }
    if name.takes_value() {
        let (value, behind) = behind.split_first()?;
        Some((name, value.as_str(), behind))
    } else {
        Some((name, "", behind))
    }
}

// Whether words are options of the command.
fn are_options(verb: Verb, words: &[String]) -> bool
    ensures { result ≡ is_some (options_of verb (texts_of words.now)) }
{
    let mut rest = words;
    'option: while !rest.is_empty() {
        let Some((_, _, behind)) = first_option(verb, rest) else {
            return false;
        };
        rest = behind;
    }
    true
}

// The value of an option, if it is given.
fn find_value<'a>(verb: Verb, name: Name, words: &'a [String]) -> Option<&'a str>
    requires { IsSome (options_of verb (texts_of words.now)) }
    ensures { option_copied result ≡ value_behind name (given_in verb (texts_of words.now)) }
{
    let mut rest = words;
    'option: while !rest.is_empty() {
        let (first, value, behind) = first_option(verb, rest)?;
        if first == name {
            return Some(value);
        }
        rest = behind;
    }
    None
}

// Whether no name stands twice.
fn are_once(verb: Verb, words: &[String]) -> bool
    requires { IsSome (options_of verb (texts_of words.now)) }
    ensures { result ≡ is_once (given_in verb (texts_of words.now)) }
{
    let mut rest = words;
    'option: while !rest.is_empty() {
        let Some((first, _, behind)) = first_option(verb, rest) else {
            return true;
        };
        if find_value(verb, first, behind).is_some() {
            return false;
        }
        rest = behind;
    }
    true
}

/// The options of a command, no name twice. A flag's value is empty.
#[derive(Drop)]
pub struct Options<'a> {
    verb: Verb,
    words: &'a [String],
}

impl<'a> Model for Options<'a> {
    ghost use Rattle.std.specs.Prelude.{◌+◌, ◌^◌, List, ◌≡◌, Some};
    ghost use Rattle.sk_cli.specs.Options.{Given, options_of, given_in, texts_of, is_once};

    ghost Value = { List Given };

    ghost view = { λ o. given_in o.verb (texts_of o.words.now) };

    ghost invariant = { λ o. options_of o.verb (texts_of o.words.now) ≡ Some (given_in o.verb (texts_of o.words.now)) };
}

impl<'a> Options<'a> {
    /// The options that the words spell. `None` if a word is no name of the command's, a value is
    /// missing, or a name stands twice.
    pub fn new(verb: Verb, words: &'a [String]) -> Option<Self>
        ensures { result ≡ spelled_by verb (texts_of words.now) }
    {
        if are_options(verb, words) && are_once(verb, words) {
            Some(Options { verb, words })
        } else {
            None
        }
    }

    /// The value of an option.
    pub fn value(&self, name: Name) -> Option<&'a str>
        ensures { option_copied result ≡ value_behind name self.now }
    {
        find_value(self.verb, name, self.words)
    }

    /// Whether a name is given.
    pub fn has(&self, name: Name) -> bool
        ensures { result ≡ is_given name self.now }
    {
        self.value(name).is_some()
    }

    /// The number that an option has, or its default if it is not given. `None` if the value is no
    /// number from `low` to `high`.
    pub fn number(&self, name: Name, low: u64, high: u64, default: u64) -> Option<u64>
        requires below_end { high + 1 < 2 ^ 64 }
        requires default_low { low ≤ default }
        requires default_high { default ≤ high }
        ensures value { result ≡ number_in low high default (value_behind name self.now) }
        ensures within { IfSome result (λ n. (low ≤ n) × (n ≤ high)) }
    {
        match self.value(name) {
            Some(word) => number_from(word.as_bytes(), low, high),
            None => Some(default),
        }
    }

    /// The number of an option that has to be given. `None` if it is not, or the value is no number
    /// from `low` to `high`.
    pub fn required(&self, name: Name, low: u64, high: u64) -> Option<u64>
        requires { high + 1 < 2 ^ 64 }
        ensures value { result ≡ required_in low high (value_behind name self.now) }
        ensures within { IfSome result (λ n. (low ≤ n) × (n ≤ high)) }
    {
        number_from(self.value(name)?.as_bytes(), low, high)
    }

    /// The word of an option that has to be given. `None` if it is not, or is empty.
    pub fn word(&self, name: Name) -> Option<&'a str>
        ensures { option_copied result ≡ word_in (value_behind name self.now) }
    {
        let word = self.value(name)?;
        if word.is_empty() { None } else { Some(word) }
    }

    /// The seed of the hash, 0 if it is not given. `None` if the value is out of its limits.
    pub fn seed(&self) -> Option<u32>
        ensures { result ≡ seed_by self.now }
    {
        Some(self.number(Name::Seed, 0, u64::from(u32::MAX), 0)? as u32)
    }

    /// The column of the records that are read in place of lines, 0 for lines.
    pub fn column(&self) -> Option<u32>
        ensures { result ≡ column_by self.now }
    {
        if self.has(Name::Csv) {
            Some(self.number(Name::Csv, 1, 4_096, 1)? as u32)
        } else {
            Some(0)
        }
    }

    /// How many hashes the sketch keeps, 4,096 if that is not given.
    pub fn k(&self) -> Option<u32>
        ensures value { result ≡ k_by self.now }
        ensures within { IfSome result (IsFrom least_k most_k) }
    {
        Some(self.number(Name::K, u64::from(LEAST_K), u64::from(MOST_K), 4_096)? as u32)
    }

    /// How many items a buffer of each updater has room for, 64 if that is not given.
    pub fn size(&self) -> Option<u32>
        ensures value { result ≡ size_by self.now }
        ensures within { IfSome result (IsFrom 1 most_size) }
    {
        Some(self.number(Name::B, 1, u64::from(MOST_SIZE), 64)? as u32)
    }

    /// How many updaters there are, 1 if that is not given.
    pub fn updaters(&self) -> Option<u32>
        ensures value { result ≡ updaters_by self.now }
        ensures within { IfSome result (IsFrom 1 most_updaters) }
    {
        Some(self.number(Name::Updaters, 1, u64::from(MOST_UPDATERS), 1)? as u32)
    }

    /// How many items the buffers of the updaters have room for, 64 if that is not given. The last
    /// stands for all further updaters.
    pub fn sizes(&self) -> Option<Numbers>
        ensures value { result ≡ sizes_by self.now }
        ensures some { IfSome result (λ sizes. 1 ≤ length sizes) }
        ensures within { IfSome result (λ sizes. All (IsFrom 1 most_size) sizes) }
    {
        match self.value(Name::B) {
            Some(word) => number_list(word, 64, 1, u64::from(MOST_SIZE)),
            None => {
                let mut sizes = Numbers::new();
                sizes.push(64);
                Some(sizes)
            }
        }
    }

    /// After how many lines an estimate is written, if that is asked for.
    pub fn window(&self) -> Option<Option<u32>>
        ensures value { result ≡ window_by self.now }
        ensures within { IfSome result (λ window. IfSome window (IsFrom 1 most_lines)) }
    {
        if self.has(Name::Window) {
            Some(Some(self.number(Name::Window, 1, 1_000_000, 1)? as u32))
        } else {
            Some(None)
        }
    }

    /// Whether updaters propagate by themselves while the sketch is small.
    pub fn eager(&self) -> Option<bool>
        ensures { result ≡ eager_by self.now }
    {
        self.is_yes(Name::Eager)
    }

    /// Whether one thread propagates for the updaters.
    pub fn propagator(&self) -> Option<bool>
        ensures { result ≡ propagator_by self.now }
    {
        self.is_yes(Name::Propagator)
    }

    /// At which estimates an alarm is written.
    pub fn alarms(&self) -> Option<Numbers>
        ensures value { result ≡ alarms_by self.now }
        ensures few { IfSome result (λ alarms. length alarms ≤ board_places) }
    {
        match self.value(Name::Alarm) {
            Some(word) => number_list(word, 8, 0, MOST_MARK),
            None => Some(Numbers::new()),
        }
    }

    // Whether an option is yes, as it is if it is not given.
    fn is_yes(&self, name: Name) -> Option<bool>
        ensures { result ≡ is_yes_in (value_behind name self.now) }
    {
        match self.value(name) {
            Some(word) => yes_or_no(word),
            None => Some(true),
        }
    }
}
