//! What stands behind the last `/`, and what stands before one at the end.

ghost use Rattle.std.specs.Prelude.{◌≡◌};
ghost use Rattle.s3_model.specs.ContentTypes.{last_name};
ghost use Rattle.path_names.specs.Names.{without_slash};

/// What follows the last `/`, or all of the path where it has none.
pub fn last_name(path: &str) -> &str
    ensures name { result.now ≡ last_name path.now }
{
    match path.rsplit_once('/') {
        Some((_, name)) => name,
        None => path,
    }
}

/// The path without the `/` at its end, if it has one there.
pub fn without_slash(path: &str) -> &str
    ensures front { result.now ≡ without_slash path.now }
{
    match path.strip_suffix("/") {
        Some(front) => front,
        None => path,
    }
}
