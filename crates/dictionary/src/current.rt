// The list of arrays that is in effect for an id.
ghost use Rattle.std.specs.Prelude.{◌≡◌, ◌<◌, vec_len, vec_capacity};
ghost use Rattle.dictionary.specs.Kept.{number_in};
ghost use Rattle.dictionary.specs.inner.Numbers.{with_number, IsPlace};

/// The number of the list that is in effect for an id.
#[derive(Clone, Copy)]
pub(crate) struct CurrentList {
    pub(crate) id: u64,
    pub(crate) number: usize,
}

// Returns the index of the entry for an id, if there is one.
fn place_of(numbers: &[CurrentList], id: u64) -> Option<usize>
    ensures { IsPlace id numbers.now result }
{
    for (i, current) in numbers.iter().enumerate() {
        if current.id == id {
            return Some(i);
        }
    }
    None
}

/// Returns the number of an id, if it has one.
pub(crate) fn number_of(numbers: &[CurrentList], id: u64) -> Option<usize>
    ensures { result ≡ number_in id numbers.now }
{
    match place_of(numbers, id) {
        Some(i) => Some(numbers[i].number),
        None => None,
    }
}

/// Sets the number of an id, in place of any earlier one. There must be room for one more.
pub(crate) fn set_number(numbers: &mut Vec<CurrentList>, id: u64, number: usize)
    requires { vec_len numbers.old < vec_capacity numbers.old }
    ensures { numbers.new.items ≡ with_number id number numbers.old.items }
{
    let current = CurrentList { id, number };
    match place_of(numbers, id) {
        Some(i) => numbers[i] = current,
        None => numbers.push_reserved(current),
    }
}
