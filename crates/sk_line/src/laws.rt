//! What follows from the definitions alone.
ghost use Rattle.std.specs.Prelude.{◌≡◌, ℕ, ◌+◌, ◌≤◌, List, ◌∷◌, ◌++◌, [], length, codes, All};
ghost use Rattle.sk_compose.specs.Numbers.{k_of};
ghost use Rattle.sk_hub.specs.Updaters.{UpdaterState, kept_of};
ghost use Rattle.sk_hub.specs.Calls.{GoesOn};
ghost use Rattle.sk_theta.specs.Sizes.{Sizes};
ghost use Rattle.sk_line.specs.Requests.{client_request};
ghost use Rattle.sk_line.specs.Serving.{Answered, AnswersLine, AnswersEach, items_kept, kept_since, answered_busy, items_offered, TakesOffered};
ghost use Rattle.sk_line.specs.declared.answers.Answer.TheVariants as answer;
ghost use Rattle.sk_line.specs.declared.requests.Request.TheVariants as request;

/// After the answers to some lines an updater has also kept exactly the items of the adds that were answered
/// `kept`, in order, and it has seen at each line what it had seen before.
pub fn answers_keep_items()
    ensures kept { (shape : Sizes) (u : UpdaterState) (answered : List Answered) (v : UpdaterState) → AnswersEach shape u answered v
        → kept_of v ≡ kept_of u ++ items_kept shape.seed answered }
    ensures goes { (shape : Sizes) (u : UpdaterState) (answered : List Answered) (v : UpdaterState) → AnswersEach shape u answered v → GoesOn u v }
{}

/// No line that was answered asks to quit: the one that does ends the session.
pub fn no_answer_quits()
    ensures { (shape : Sizes) (u : UpdaterState) (answered : List Answered) (v : UpdaterState) → AnswersEach shape u answered v
        → All (λ t. client_request t.line ≡ request.Quit → ⊥) answered }
{}

/// For each sync that was answered `synced` the pump was called twice: before its line, and before its look.
pub fn a_sync_is_helped()
    ensures { (shape : Sizes) (u : UpdaterState) (answered : List Answered) (v : UpdaterState) → AnswersEach shape u answered v
        → All (λ t. t.answer ≡ answer.Synced → 2 ≤ t.pumps) answered }
{}

/// Of the items of all adds that were answered `kept` or `filtered`, in order, the updater has kept each
/// that its base does not filter: so what is published in the end has the estimate of all of them.
pub fn answers_take_items()
    ensures { (shape : Sizes) (u : UpdaterState) (answered : List Answered) (v : UpdaterState) → k_of u.view.numbers ≡ shape.k → AnswersEach shape u answered v
        → TakesOffered u (items_offered shape.seed answered) v }
{}

/// Counted since the last `synced`, an add is `busy` only if more items were kept than a buffer
/// holds, and a sync only if one was.
pub fn busy_is_bounded()
    ensures { (shape : Sizes) (u v w : UpdaterState) (answered : List Answered) (line : List ℕ) (pumps : ℕ) → AnswersEach shape u answered v → AnswersLine shape v (answered_busy line pumps) w
        → (client_request line ≡ request.Add → u.size + 1 ≤ kept_since (length (kept_of u)) answered)
        × (client_request line ≡ request.Sync → 1 ≤ kept_since (length (kept_of u)) answered) }
{}

/// Lines that are requests, and such as are not.
#[tactic(auto, unfolding(crate::specs::Requests::client_request))]
pub fn worked_requests()
    ensures add { client_request (codes "add x") ≡ request.Add }
    ensures space { client_request (codes "add  x") ≡ request.Add }
    ensures no_item { client_request (codes "add ") ≡ request.Bad }
    ensures no_space { client_request (codes "add") ≡ request.Bad }
    ensures upper { client_request (codes "ADD x") ≡ request.Bad }
    ensures ask { client_request (codes "ask") ≡ request.Ask }
    ensures behind { client_request (codes "ask ") ≡ request.Bad }
    ensures sync { client_request (codes "sync") ≡ request.Sync }
    ensures quit { client_request (codes "quit") ≡ request.Quit }
    ensures quit_cr { client_request (codes "quit" ++ 13 ∷ []) ≡ request.Bad }
    ensures empty { client_request [] ≡ request.Bad }
{}
