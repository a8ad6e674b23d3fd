//! The claims of passes that were joined, in one list for the owner.
ghost use Rattle.std.specs.Prelude.{◌≡◌, ◌+◌, ◌++◌, ◌≤◌, [], length, map, vec_capacity};
ghost use Rattle.shared_rounds.specs.Gathered.{all_blocks, all_held, blocks_before, held_before, held_in, held_with};

use patch_claims::patch::{Patch as Published, Spot};
use table_passes::lists::Lists;
use table_passes::work::Joined;
use table_rounds::patch::{Held, Patch};

// Appends the blocks of published patches, the last first, to a list that has room for them.
fn add_blocks(blocks: &mut Vec<Patch>, published: Vec<Published>)
    requires room { length blocks.old.items + length published.items ≤ vec_capacity blocks.old }
    ensures items { blocks.new.items ≡ blocks.old.items ++ blocks_before published.items [] }
    ensures capacity { vec_capacity blocks.new ≡ vec_capacity blocks.old }
{
    let mut rest = published;
    while let Some(patch) = rest.pop() {
        blocks.push_reserved(Patch {
            block: patch.block,
            first: patch.spot.first,
            second: patch.spot.second,
        });
    }
}

/// Appends the blocks that the passes published, one pass after the other, to a list that has room for them.
pub fn add_all_blocks(blocks: &mut Vec<Patch>, joined: Vec<Joined>)
    requires room { length blocks.old.items + length (all_blocks (map (λ d. d.lists) joined.items)) ≤ vec_capacity blocks.old }
    ensures items { blocks.new.items ≡ blocks.old.items ++ all_blocks (map (λ d. d.lists) joined.items) }
    ensures capacity { vec_capacity blocks.new ≡ vec_capacity blocks.old }
{
    for pass in joined {
        add_blocks(blocks, pass.lists.published);
    }
}

// Appends a claim that got no block, if there is one, to a list that has room for it.
fn add_failed(held: &mut Vec<Held>, failed: Option<Spot>)
    requires room { length held.old.items + length (held_with failed []) ≤ vec_capacity held.old }
    ensures items { held.new.items ≡ held.old.items ++ held_with failed [] }
    ensures capacity { vec_capacity held.new ≡ vec_capacity held.old }
{
    if let Some(spot) = failed {
        held.push_reserved(Held {
            first: spot.first,
            second: spot.second,
            block: None,
        });
    }
}

// Appends the claims of published patches, the last first, to a list that has room for them.
fn add_published(held: &mut Vec<Held>, published: Vec<Published>)
    requires room { length held.old.items + length published.items ≤ vec_capacity held.old }
    ensures items { held.new.items ≡ held.old.items ++ held_before published.items [] }
    ensures capacity { vec_capacity held.new ≡ vec_capacity held.old }
{
    let mut rest = published;
    while let Some(patch) = rest.pop() {
        held.push_reserved(Held {
            first: patch.spot.first,
            second: patch.spot.second,
            block: Some(patch.block),
        });
    }
}

// Appends the claims of a pass to a list that has room for them.
fn add_held(held: &mut Vec<Held>, lists: Lists)
    requires room { length held.old.items + length (held_in lists) ≤ vec_capacity held.old }
    ensures items { held.new.items ≡ held.old.items ++ held_in lists }
    ensures capacity { vec_capacity held.new ≡ vec_capacity held.old }
{
    add_failed(held, lists.failed);
    add_published(held, lists.published);
}

/// Appends the claims of the passes, one pass after the other, to a list that has room for them.
pub fn add_all_held(held: &mut Vec<Held>, joined: Vec<Joined>)
    requires room { length held.old.items + length (all_held (map (λ d. d.lists) joined.items)) ≤ vec_capacity held.old }
    ensures items { held.new.items ≡ held.old.items ++ all_held (map (λ d. d.lists) joined.items) }
    ensures capacity { vec_capacity held.new ≡ vec_capacity held.old }
{
    for pass in joined {
        add_held(held, pass.lists);
    }
}
