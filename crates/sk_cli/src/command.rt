// The words of a command line as what is asked.
ghost use Rattle.std.specs.Prelude.{◌≡◌, None, IfSome, is_some};
ghost use Rattle.std.specs.Option.{option_map, option_copied};
ghost use Rattle.sk_cli.specs.Options.{texts_of, file_by};
ghost use Rattle.sk_cli.specs.Command.{request_of, asked_of, asked_by, count_by, hash_by, image_by, join_by, serve_by, make_by, quantile_by, replay_by, tally_by, tenants_by, window_by, alone, OfText, IsInOrder};

use crate::commands::count::plan_of;
use crate::commands::hash::HashPlan;
use crate::commands::image::ImagePlan;
use crate::commands::join::JoinPlan;
use crate::commands::make::MakePlan;
use crate::commands::tenants::TenantsPlan;
use crate::commands::{quantile, serve, tally, window};
use crate::options::{Name, Options, Verb};
use sk_count::Plan;
use sk_serve::ServePlan;

/// A command over at most one text.
#[derive(Drop)]
pub enum Command<'a> {
    /// Estimate how many distinct items there are.
    Count(Plan),
    /// Write the hash of each line that is not empty.
    Hash(HashPlan),
    /// Write the image of the items.
    Image(ImagePlan),
    /// Estimate how many distinct numbers there are in lines that the program makes.
    Make(MakePlan),
    /// Estimate the rank of a number among those of a text.
    Quantile(sk_rank::Plan),
    /// Play a schedule and write the answer to each event.
    Replay,
    /// Count how often one item comes.
    Tally(sk_tally::Plan),
    /// Estimate how many distinct items each tenant has.
    Tenants(TenantsPlan<'a>),
    /// Estimate how many distinct items the last intervals have.
    Window(sk_panes::Plan),
    Help,
    Version,
}

/// A command over at most one text, and the name of the file that it reads in place of the standard input.
#[derive(Drop)]
pub struct OverText<'a> {
    pub command: Command<'a>,
    pub file: Option<&'a str>,
}

/// What the program is asked to do.
#[derive(Drop)]
pub enum Request<'a> {
    OverText(OverText<'a>),
    /// Join two images.
    Join(JoinPlan<'a>),
    /// Answer clients' requests over links.
    Serve(ServePlan),
}

impl<'a> Request<'a> {
    /// What the words ask for, or `None` if they are no command with its options.
    pub fn of(words: &'a [String]) -> Option<Request<'a>>
        ensures value { option_map asked_of result ≡ request_of (texts_of words.now) }
        ensures order { IfSome result (λ request. IsInOrder (asked_of request)) }
    {
        let (verb, behind) = words.split_first()?;
        match verb.as_str() {
            "count" => Request::count(&Options::new(Verb::Count, behind)?),
            "hash" => Request::hash(&Options::new(Verb::Hash, behind)?),
            "image" => Request::image(&Options::new(Verb::Image, behind)?),
            "join" => Request::join(&Options::new(Verb::Join, behind)?),
            "make" => Request::make(&Options::new(Verb::Make, behind)?),
            "quantile" => Request::quantile(&Options::new(Verb::Quantile, behind)?),
            "replay" => Request::replay(&Options::new(Verb::Replay, behind)?),
            "serve" => Request::serve(&Options::new(Verb::Serve, behind)?),
            "tally" => Request::tally(&Options::new(Verb::Tally, behind)?),
            "tenants" => Request::tenants(&Options::new(Verb::Tenants, behind)?),
            "window" => Request::window(&Options::new(Verb::Window, behind)?),
            "--help" => alone(Command::Help, behind),
            "--version" => alone(Command::Version, behind),
            _ => None,
        }
    }

    fn count(options: &Options<'a>) -> Option<Request<'a>>
        ensures value { option_map asked_of result ≡ asked_by count_by options.now }
        ensures order { IfSome result (λ request. IsInOrder (asked_of request)) }
    {
        let command = Command::Count(plan_of(options)?);
        let file = file_in(options)?;
        Some(Request::OverText(OverText { command, file }))
    }

    fn hash(options: &Options<'a>) -> Option<Request<'a>>
        ensures value { option_map asked_of result ≡ asked_by hash_by options.now }
        ensures order { IfSome result (λ request. IsInOrder (asked_of request)) }
    {
        let command = Command::Hash(HashPlan::of(options)?);
        let file = file_in(options)?;
        Some(Request::OverText(OverText { command, file }))
    }

    fn image(options: &Options<'a>) -> Option<Request<'a>>
        ensures value { option_map asked_of result ≡ asked_by image_by options.now }
        ensures order { IfSome result (λ request. IsInOrder (asked_of request)) }
    {
        let command = Command::Image(ImagePlan::of(options)?);
        let file = file_in(options)?;
        Some(Request::OverText(OverText { command, file }))
    }

    fn join(options: &Options<'a>) -> Option<Request<'a>>
        ensures value { option_map asked_of result ≡ join_by options.now }
        ensures order { IfSome result (λ request. IsInOrder (asked_of request)) }
    {
        Some(Request::Join(JoinPlan::of(options)?))
    }

    fn make(options: &Options<'a>) -> Option<Request<'a>>
        ensures value { option_map asked_of result ≡ make_by options.now }
        ensures order { IfSome result (λ request. IsInOrder (asked_of request)) }
    {
        let command = Command::Make(MakePlan::of(options)?);
        Some(Request::OverText(OverText {
            command,
            file: None,
        }))
    }

    fn quantile(options: &Options<'a>) -> Option<Request<'a>>
        ensures value { option_map asked_of result ≡ asked_by quantile_by options.now }
        ensures order { IfSome result (λ request. IsInOrder (asked_of request)) }
    {
        let command = Command::Quantile(quantile::plan_of(options)?);
        let file = file_in(options)?;
        Some(Request::OverText(OverText { command, file }))
    }

    fn replay(options: &Options<'a>) -> Option<Request<'a>>
        ensures value { option_map asked_of result ≡ asked_by replay_by options.now }
        ensures order { IfSome result (λ request. IsInOrder (asked_of request)) }
    {
        let file = file_in(options)?;
        Some(Request::OverText(OverText {
            command: Command::Replay,
            file,
        }))
    }

    fn serve(options: &Options<'a>) -> Option<Request<'a>>
        ensures value { option_map asked_of result ≡ serve_by options.now }
        ensures order { IfSome result (λ request. IsInOrder (asked_of request)) }
    {
        Some(Request::Serve(serve::plan_of(options)?))
    }

    fn tally(options: &Options<'a>) -> Option<Request<'a>>
        ensures value { option_map asked_of result ≡ asked_by tally_by options.now }
        ensures order { IfSome result (λ request. IsInOrder (asked_of request)) }
    {
        let command = Command::Tally(tally::plan_of(options)?);
        let file = file_in(options)?;
        Some(Request::OverText(OverText { command, file }))
    }

    fn tenants(options: &Options<'a>) -> Option<Request<'a>>
        ensures value { option_map asked_of result ≡ asked_by tenants_by options.now }
        ensures order { IfSome result (λ request. IsInOrder (asked_of request)) }
    {
        let command = Command::Tenants(TenantsPlan::of(options)?);
        let file = file_in(options)?;
        Some(Request::OverText(OverText { command, file }))
    }

    fn window(options: &Options<'a>) -> Option<Request<'a>>
        ensures value { option_map asked_of result ≡ asked_by window_by options.now }
        ensures order { IfSome result (λ request. IsInOrder (asked_of request)) }
    {
        let command = Command::Window(window::plan_of(options)?);
        let file = file_in(options)?;
        Some(Request::OverText(OverText { command, file }))
    }
}

/// Whether the words are a command with its options.
pub fn is_request(words: &[String]) -> bool
    ensures { result ≡ is_some (request_of (texts_of words.now)) }
{
    Request::of(words).is_some()
}

// The command, if no word follows it.
fn alone<'a>(command: Command<'a>, behind: &[String]) -> Option<Request<'a>>
    ensures value { option_map asked_of result ≡ alone command.entry (texts_of behind.now) }
    ensures alone { IfSome result (λ request. asked_of request ≡ OfText (record { command = command.entry; file = None })) }
{
    if behind.is_empty() {
        Some(Request::OverText(OverText {
            command,
            file: None,
        }))
    } else {
        None
    }
}

// The name of the file, if there is one. `None` if it is empty.
fn file_in<'a>(options: &Options<'a>) -> Option<Option<&'a str>>
    ensures { option_map option_copied result ≡ file_by options.now }
{
    match options.value(Name::File) {
        None => Some(None),
        Some(name) => {
            if name.is_empty() {
                None
            } else {
                Some(Some(name))
            }
        }
    }
}
