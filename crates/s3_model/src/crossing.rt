//! What may cross between threads.

use crate::answers::{Answered, Reply};
use crate::bytes::Part;
use crate::list::{Journal, Texts};
use crate::outcomes::{Event, Outcome};
use crate::places::Endpoint;
use crate::requests::Ask;
use crate::settings::Keys;
use crate::tasks::Task;
use crate::text::Text;
use crate::tries::Tries;
use crate::upload_id::UploadId;

fn crosses<T: Send + Sync>() {}

/// What jobs and outcomes are made of crosses threads.
pub fn all_cross() {
    crosses::<Text>();
    crosses::<Texts>();
    crosses::<Part>();
    crosses::<UploadId>();
    crosses::<Tries>();
    crosses::<Task>();
    crosses::<Ask>();
    crosses::<Reply>();
    crosses::<Answered>();
    crosses::<Outcome>();
    crosses::<Event>();
    crosses::<Journal>();
    crosses::<Endpoint>();
    crosses::<Keys>();
}
