//! Pages that are refused by their content.

ghost use Rattle.refused_outcomes.specs.FittingPages.{OtherPagesAreUnfit, RefusedPageFits};
ghost use Rattle.refused_outcomes.specs.RefusedPages.{PagesAreRefused};

/// A planning whose second page is out of order asks what it needs where that page is said to be refused, and not where
/// none or another one is, nor where something is asked behind it. A page in order is not to be called refused. A
/// command that ends by a local fault before it needs anything asks nothing.
pub fn refused_pages()
    ensures { PagesAreRefused }
{}

/// A planning that lists two pages read a second page that repeats the key of the first, and refused it. The honest
/// trace of a service that lists two keys, each on a page of its own, fits that run. It does not where the run is said
/// to have refused no page, or another one.
pub fn fitting_pages()
    ensures met { RefusedPageFits }
    ensures refused { OtherPagesAreUnfit }
{}
