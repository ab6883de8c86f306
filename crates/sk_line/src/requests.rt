//! What a client asks for.
ghost use Rattle.std.specs.Prelude.{◌≡◌, ◌<◌, length};
ghost use Rattle.sk_line.specs.Requests.{client_request, is_add};

/// What a line of a client asks for.
#[derive(Clone, Copy, Debug, PartialEq, Eq)]
pub enum Request {
    /// To count the item after the word.
    Add,
    /// For an estimate.
    Ask,
    /// That all it added so far is published.
    Sync,
    /// To end the session.
    Quit,
    /// The line is no request.
    Bad,
}

impl Request {
    /// The request that a line spells.
    #[tactic(auto, unfolding(crate::specs::Requests::client_request))]
    pub fn of(line: &[u8]) -> Request
        ensures value { result ≡ client_request line.now }
        ensures item { result ≡ Request.Add → 4 < length line.now }
    {
        match line {
            b"ask" => Request::Ask,
            b"sync" => Request::Sync,
            b"quit" => Request::Quit,
            _ => {
                if is_add(line) {
                    Request::Add
                } else {
                    Request::Bad
                }
            }
        }
    }
}

// Whether a line is the word, one space and an item.
fn is_add(line: &[u8]) -> bool
    ensures { result ≡ is_add line.now }
{
    line.len() > 4 && &line[..4] == b"add ".as_slice()
}
