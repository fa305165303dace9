//! The empty word, by the parts of a path.

ghost use Rattle.std.specs.Prelude.{◌≡◌};
ghost use Rattle.path_regex.specs.Derivatives.{takes_empty as takes};

use merlin_model::policy::Path;

/// Whether the path takes the empty word.
pub fn takes_empty(path: &Path) -> bool
    ensures { result ≡ takes path.now }
{
    match path {
        Path::Nothing | Path::Dot | Path::Loc(_) | Path::Fun(_) => false,
        Path::Empty | Path::Star(_) => true,
        Path::Cat(first, rest) => takes_empty(first.get()) && takes_empty(rest.get()),
        Path::Alt(paths) => {
            for path in paths.as_slice() {
                if takes_empty(path) {
                    return true;
                }
            }
            false
        }
        Path::Not(inner) => !takes_empty(inner.get()),
    }
}
