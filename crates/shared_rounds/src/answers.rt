//! What the calls of the passes answered.
ghost use Rattle.std.specs.Prelude.{◌≡◌, ℕ, ◌+◌, ◌++◌, ◌∷◌, ◌≤◌, [], false, true, All, None, length, map, vec_capacity};
ghost use Rattle.table_words.specs.Claims.{Failed, claim};
ghost use Rattle.table_words.specs.Entries.{HasEntry};
ghost use Rattle.table_words.specs.declared.layout.Layout.{Layout};
ghost use Rattle.table_passes.specs.Kept.{all_claims};
ghost use Rattle.shared_rounds.specs.Reached.{all_put_off, put_off};

use mesh_names::name::ElemName;
use patch_claims::needs::ClaimRefusal;
use patch_claims::refine::Done;
use table_passes::work::Joined;

/// Whether a claim of some pass got no block.
pub fn any_failed(joined: &[Joined]) -> bool
    ensures none { result ≡ false → All (λ d. d.lists.failed ≡ None) joined.now }
    ensures some { result ≡ true → (l : Layout) → (x m : ℕ) × HasEntry (all_claims l (map (λ d. d.lists) joined.now)) (claim x m Failed) }
{
    for pass in joined {
        if pass.lists.failed.is_some() {
            return true;
        }
    }
    false
}

// Appends a name if its call was refused.
fn add_refused(names: &mut Vec<ElemName>, name: ElemName, answer: &Result<Done, ClaimRefusal>)
    requires room { length names.old.items + length (put_off (name ∷ []) (answer.now ∷ [])) ≤ vec_capacity names.old }
    ensures items { names.new.items ≡ names.old.items ++ put_off (name ∷ []) (answer.now ∷ []) }
    ensures capacity { vec_capacity names.new ≡ vec_capacity names.old }
{
    if answer.is_err() {
        names.push_reserved(name);
    }
}

/// Appends the names of a pass that were put off to a list that has room for them.
pub fn add_put_off(
    names: &mut Vec<ElemName>,
    dealt: &[ElemName],
    answers: &[Result<Done, ClaimRefusal>],
)
    requires few { length answers.now ≤ length dealt.now }
    requires room { length names.old.items + length (put_off dealt.now answers.now) ≤ vec_capacity names.old }
    ensures items { names.new.items ≡ names.old.items ++ put_off dealt.now answers.now }
    ensures capacity { vec_capacity names.new ≡ vec_capacity names.old }
{
    for place in 0..answers.len() {
        add_refused(names, dealt[place], &answers[place]);
    }
}

/// Appends the names of all passes that were put off to a list that has room for them.
pub fn add_all_put_off(names: &mut Vec<ElemName>, joined: &[Joined])
    requires few { All (λ d. length d.answers.items ≤ length d.names.items) joined.now }
    requires room { length names.old.items + length (all_put_off joined.now) ≤ vec_capacity names.old }
    ensures items { names.new.items ≡ names.old.items ++ all_put_off joined.now }
    ensures capacity { vec_capacity names.new ≡ vec_capacity names.old }
{
    for pass in joined {
        add_put_off(names, &pass.names, &pass.answers);
    }
}
