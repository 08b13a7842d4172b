//! What holds of the answers, whatever the script.

ghost use Rattle.directive_run.specs.Laws.{EachIsExposedOnce, EachHasOneCertificate};
ghost use Rattle.directive_run.specs.Laws.{SaysYesWhereGuaranteed};

/// A law of the answers, and no work: a directive is exposed in one way under an order, it has one
/// certificate, and of at most 7 threads that says yes exactly where the directive guarantees its
/// verdict.
pub fn one_certificate()
    ensures exposed { EachIsExposedOnce }
    ensures certified { EachHasOneCertificate }
    ensures guaranteed { SaysYesWhereGuaranteed }
{}
