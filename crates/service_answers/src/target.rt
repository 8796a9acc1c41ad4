//! The target of a request: a bucket, a key and a query.

/// What a target names: `/bucket/key?query`, of which each may be missing. All three stand as they are written.
#[derive(Clone, Copy)]
pub(crate) struct Target<'a> {
    pub bucket: &'a str,
    pub key: &'a str,
    query: &'a str,
}

impl<'a> Target<'a> {
    /// None where it does not begin with `/`.
    pub(crate) fn read(target: &'a str) -> Option<Target<'a>> {
        let (path, query) = target.split_once('?').unwrap_or((target, ""));
        let names = path.strip_prefix("/")?;
        let (bucket, key) = names.split_once('/').unwrap_or((names, ""));
        Some(Target { bucket, key, query })
    }

    /// Whether the query has this name, with or without a value.
    pub(crate) fn has(self, name: &str) -> bool {
        self.written(name).is_some()
    }

    /// The value of a name of the query, as it is written.
    pub(crate) fn written(self, name: &str) -> Option<&'a str> {
        for pair in self.query.split('&') {
            let (found, value) = pair.split_once('=').unwrap_or((pair, ""));
            if found == name {
                return Some(value);
            }
        }
        None
    }
}
