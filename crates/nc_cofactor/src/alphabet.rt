//! Traces and labels over the alphabet of a problem.

ghost use Rattle.nc_cofactor.specs.Letters.{CofactorsAreOver};

/// The words of a listed item's trace, and those of its label, are over the problem's alphabet.
pub fn cofactors_are_over()
    ensures { CofactorsAreOver }
{}
