//! Tables of names.

ghost use Rattle.std.specs.Prelude.{◌^◌, ◌<◌, ◌≡◌, length, map};
ghost use Rattle.s3_model.specs.FirstRow.{IsFirstRow};

/// A table of names, each the row of its place.
#[derive(Clone, Copy)]
pub struct Cases<const N: usize> {
    pub names: &'static [&'static str],
    ghost rows: { length names.now ≡ N },
}

fn find_in(names: &[&'static str], name: &str) -> Option<u32>
    requires { length names.now < 2 ^ 32 }
    ensures { IsFirstRow (map (λ row. row.now) names.now) name.now result }
{
    let mut row: u32 = 0;
    for each in names {
        if *each == name {
            return Some(row);
        }
        row += 1;
    }
    None
}

impl<const N: usize> Cases<N> {
    /// The first row with the name, counted from 0; None where no row has it.
    pub fn find(&self, name: &str) -> Option<u32>
        requires { N < 2 ^ 32 }
        ensures { IsFirstRow (map (λ row. row.now) self.now.names.now) name.now result }
    {
        find_in(self.names, name)
    }
}
