//! The texts that an S3 service's documents have as values: references, numbers, times, escapes and forms.
#![tactic(auto)]

mod forms;
mod numbers;
mod references;
mod times;
mod url_text;

pub use forms::{is_etag, is_key, is_upload_id};
pub use numbers::{number, truth};
pub use references::{BadReference, ReferenceFault, bad_reference, unescape};
pub use times::time;
pub use url_text::{UrlFault, url_decode};
