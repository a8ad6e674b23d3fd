//! Growth of a list, with want of memory as a refusal.
ghost use Rattle.std.specs.Prelude.{◌≡◌, ◌++◌, ◌∷◌, [], OnOk, IfErr};

use crate::refusal::MacroRefusal;

/// Appends the item.
pub fn push<T: Drop>(list: &mut Vec<T>, item: T) -> Result<(), MacroRefusal>
    ensures ok { OnOk result (list.new.items ≡ list.old.items ++ item ∷ []) }
    ensures err { IfErr result (λ r. r ≡ MacroRefusal.Memory) }
{
    if list.push(item).is_err() {
        return Err(MacroRefusal::Memory);
    }
    Ok(())
}
