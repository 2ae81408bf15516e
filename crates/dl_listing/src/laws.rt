//! A law of the definitions of listings, the contract of a function that does nothing.

ghost use Rattle.dl_listing.specs.ListingLaws.{PathsAreShownWhole};

/// Where a file of an index has the texts that its path is made of under the compilation directory that counts, a listing
/// shows of them what `addr` shows of the whole path. Sections 3.1.1 and 6.2.4.
pub fn paths_are_shown_whole()
    ensures { PathsAreShownWhole }
{}
