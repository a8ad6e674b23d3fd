//! The list of a key among those that were read.
ghost use Rattle.std.specs.Prelude.{◌≡◌, map, find, is_some, option_map};
ghost use Rattle.macro_file.specs.Keywords.{same};
ghost use Rattle.macro_file.specs.Meaning.{listed, numbers_of as numbers_of_key};
ghost use Rattle.macro_file.specs.Meaning.{number_at as number_at_index};
ghost use Rattle.macro_file.specs.Places.{listed_of};

use crate::keyword::Keyword;
use crate::lists::NumberList;

/// The number at this place, or 0 past the end.
pub fn number_at(numbers: &[i64], i: usize) -> i64
    ensures { result ≡ number_at_index numbers.now i }
{
    numbers.get(i).copied().unwrap_or(0)
}

// The list of the key.
fn list_of(lists: &[NumberList], keyword: Keyword) -> Option<&NumberList>
    ensures { option_map (λ l. l.now) result ≡ find (λ l. same l.keyword keyword) lists.now }
{
    lists.iter().find(|l| l.keyword == keyword)
}

/// Whether the key was given.
pub fn is_given(lists: &[NumberList], keyword: Keyword) -> bool
    ensures { result ≡ is_some (listed keyword (map listed_of lists.now)) }
{
    list_of(lists, keyword).is_some()
}

/// The numbers of a key; none where it was not given.
pub fn numbers_of(lists: &[NumberList], keyword: Keyword) -> &[i64]
    ensures { result.now ≡ numbers_of_key keyword (map listed_of lists.now) }
{
    match list_of(lists, keyword) {
        Some(list) => list.numbers.as_slice(),
        None => &[],
    }
}
