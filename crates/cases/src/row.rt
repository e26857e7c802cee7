// A row of numbers in a case. It stands in an array, since it has no more numbers than that: a `Vec` could run out of
// memory.
ghost use Rattle.std.specs.Prelude.{◌≤◌};

use crate::rows::number_at;

// The most numbers of a row in a case.
pub const ROW_ROOM: usize = 1024;

// The front of an array.
#[derive(Drop)]
pub struct Row {
    numbers: [u32; ROW_ROOM],
    count: usize,
    ghost fits: { count ≤ 1024 },
}

impl Row {
    // imported here and not above, since `row_of` is of `Row` itself
    ghost use Rattle.std.specs.Prelude.{◌≡◌};
    ghost use Rattle.cases.specs.Cases.{numbers_at};
    ghost use Rattle.cases.specs.Questions.{row_of};

    // Reads so many numbers from byte `at` on.
    pub fn read(bytes: &[u8], at: usize, count: usize) -> Row
        requires { (at ≤ 65536) × (count ≤ 1024) }
        ensures { row_of result ≡ numbers_at bytes.now at count }
    {
        let mut numbers = [0u32; ROW_ROOM];
        for i in 0..count {
            numbers[i] = number_at(bytes, at + 2 * i) as u32;
        }
        Row { numbers, count }
    }

    pub fn numbers(&self) -> &[u32]
        ensures { result.now ≡ row_of self.now }
    {
        &self.numbers[..self.count]
    }
}
