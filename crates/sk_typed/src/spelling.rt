// The words that name commands.
ghost use Rattle.std.specs.Prelude.{◌≡◌, Some};
ghost use Rattle.sk_typed.specs.Words.{verb_of};

use sk_cli::Verb;

/// The command with options that a word names.
pub fn verb_of(word: &str) -> Option<Verb>
    ensures { result ≡ verb_of word.now }
{
    match word {
        "count" => Some(Verb::Count),
        "hash" => Some(Verb::Hash),
        "image" => Some(Verb::Image),
        "join" => Some(Verb::Join),
        "make" => Some(Verb::Make),
        "quantile" => Some(Verb::Quantile),
        "replay" => Some(Verb::Replay),
        "serve" => Some(Verb::Serve),
        "tally" => Some(Verb::Tally),
        "tenants" => Some(Verb::Tenants),
        "window" => Some(Verb::Window),
        _ => None,
    }
}

/// The word that names a command.
pub fn verb_word(verb: Verb) -> &'static str
    ensures { verb_of result.now ≡ Some verb }
{
    match verb {
        Verb::Count => "count",
        Verb::Hash => "hash",
        Verb::Image => "image",
        Verb::Join => "join",
        Verb::Make => "make",
        Verb::Quantile => "quantile",
        Verb::Replay => "replay",
        Verb::Serve => "serve",
        Verb::Tally => "tally",
        Verb::Tenants => "tenants",
        Verb::Window => "window",
    }
}
