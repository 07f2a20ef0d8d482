ghost use Rattle.std.specs.Prelude.{◌≡◌};
ghost use Rattle.std.specs.Ordering.{is_eq};
ghost use Rattle.std.specs.Path.{path_cmp};

use std::path::Path;

/// Whether the two paths are equal to `std::path`, which looks at no file: `a/./log.csv` and `a//log.csv` are equal,
/// `./log.csv` and `log.csv` are not.
pub fn are_one(one: &str, other: &str) -> bool
    ensures { result ≡ is_eq (path_cmp one.now other.now) }
{
    Path::new(one) == Path::new(other)
}
