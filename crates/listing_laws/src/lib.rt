//! What a service that keeps its objects tells by its pages: the whole listing.
#![tactic(auto)]

ghost use Rattle.listing_laws.specs.Replies.{PagesMakeListing};

/// Where pages are the replies to the requests of a walk, and nobody changes an object meanwhile, then what they have
/// together is the listing: every key that begins with the prefix, or what stands for it up to the next `/`, each once.
pub fn pages_make_the_listing()
    ensures { PagesMakeListing }
{}
