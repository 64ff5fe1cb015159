//! Theorems about which types fit. They are the contracts of functions that do nothing.
ghost use Rattle.iox_domain.specs.Laws.{FitMeans, WhatFitsHasSizes};

/// What it means that the types of messages fit: which properties must be equal, which of them may differ and how, and what the
/// markers leave open.
pub fn fit_means()
    ensures { FitMeans }
{}

/// Settings that fit have sizes: `sizes_of` gives them for each description that `fits` accepts.
pub fn what_fits_has_sizes()
    ensures { WhatFitsHasSizes }
{}
