//! Where tasks read and write.

ghost use Rattle.std.specs.Prelude.{◌≡◌, IfOk};

use crate::list::OutOfMemory;
use crate::text::Text;

/// One name of a listing or of a folder. `size` is in bytes, `micros` in whole microseconds since 1970.
#[derive(Drop)]
pub struct Entry {
    pub key: Text,
    pub size: u64,
    pub etag: Text,
    pub micros: u64,
}

/// Where the bytes of a task come from or go to.
#[derive(Drop)]
pub enum Place {
    Object { bucket: Text, key: Text },
    File { path: Text },
}

impl Place {
    /// The same place in texts of its own.
    pub fn copy(&self) -> Result<Place, OutOfMemory>
        ensures { IfOk result (λ copy. copy ≡ self.now) }
    {
        match self {
            Place::Object { bucket, key } => Ok(Place::Object {
                bucket: bucket.copy()?,
                key: key.copy()?,
            }),
            Place::File { path } => Ok(Place::File { path: path.copy()? }),
        }
    }

    /// A copy of a place that may be absent.
    pub fn copy_option(place: &Option<Place>) -> Result<Option<Place>, OutOfMemory>
        ensures { IfOk result (λ copy. copy ≡ place.now) }
    {
        match place {
            Some(place) => Ok(Some(place.copy()?)),
            None => Ok(None),
        }
    }
}

/// A service that is reached by plain HTTP. `written` is the text of the Host header.
#[derive(Drop)]
pub struct Endpoint {
    pub host: Text,
    pub port: u16,
    pub written: Text,
}

impl Endpoint {
    /// The same endpoint in texts of its own.
    pub fn copy(&self) -> Result<Endpoint, OutOfMemory>
        ensures { IfOk result (λ copy. copy ≡ self.now) }
    {
        Ok(Endpoint {
            host: self.host.copy()?,
            port: self.port,
            written: self.written.copy()?,
        })
    }
}
