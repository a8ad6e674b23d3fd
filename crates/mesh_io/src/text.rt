//! Whole numbers into text.
ghost use Rattle.std.specs.Prelude.{◌≡◌, ◌++◌, OnOk, OnErr};
ghost use Rattle.std.specs.Fmt.{signed_decimal};

/// Why nothing was appended.
#[derive(Debug, PartialEq, Eq, Drop)]
pub enum TextRefusal {
    /// No memory was left.
    Memory,
}

/// Appends the number in decimal, with a `-` where it is below 0 and no leading zeros.
pub fn put_whole(to: &mut Vec<u8>, number: i64) -> Result<(), TextRefusal>
    ensures ok { OnOk result (to.new.items ≡ to.old.items ++ signed_decimal number) }
    ensures err { OnErr result (to.new.items ≡ to.old.items) }
{
    let mut buffer = itoa::Buffer::new();
    to.extend_from_slice(buffer.format(number).as_bytes())
        .map_err(|_| TextRefusal::Memory)
}
