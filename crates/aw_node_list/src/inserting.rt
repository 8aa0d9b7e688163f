//! A number put in among others.
ghost use Rattle.std.specs.Prelude.{◌≡◌, ◌+◌, ◌-◌, ◌≤◌, ◌<◌, ◌∷◌, length, take, insert, vec_len, vec_capacity};

/// Puts a number in front of all but the last one, which goes: the others move up by one place. The function stays one of its own,
/// so that the compiler sees the slice alone, and makes of the loop one move of memory.
#[inline(never)]
fn put_first(numbers: &mut [u32], number: u32)
    requires { 0 < length numbers.old }
    ensures { numbers.new ≡ number ∷ take (length numbers.old - 1) numbers.old }
{
    let mut to = numbers.len() - 1;
    while to > 0 {
        numbers[to] = numbers[to - 1];
        to -= 1;
    }
    numbers[0] = number;
}

/// Puts a number at a place, where there is room. Those behind it move up at once.
pub(crate) fn insert_number(numbers: &mut Vec<u32>, at: usize, number: u32)
    requires within { at ≤ vec_len numbers.old }
    requires room { vec_len numbers.old < vec_capacity numbers.old }
    ensures items { numbers.new.items ≡ insert numbers.old.items at number }
    ensures len { vec_len numbers.new ≡ vec_len numbers.old + 1 }
    ensures room { vec_capacity numbers.old ≤ vec_capacity numbers.new }
{
    match numbers.push(number) {
        Ok(()) => {}
        Err(_) => unreachable!(),
    }
    put_first(&mut numbers[at..], number);
}
