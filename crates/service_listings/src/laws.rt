//! The laws of listings, functions that do nothing.

ghost use Rattle.service_listings.specs.Needs.{PathsArePlanned};
ghost use Rattle.service_listings.specs.Showings.{ListingsAreDated, NoneIsStrange};

use s3_outside::Wire;

/// Once the lanes are joined, what was listed has times before the year 10000, whether or not their wires are seen, and
/// no lane brought a stranger.
pub fn listings_are_dated<W: Wire>()
    ensures dated { ListingsAreDated W.seen }
    ensures none { NoneIsStrange W.seen }
{}

/// Where the dispatches of questions show a reply just where their jobs gained it, those for a path of `ls` are asked
/// as the planning of a run asks for its needs.
pub fn paths_are_planned()
    ensures { PathsArePlanned }
{}
