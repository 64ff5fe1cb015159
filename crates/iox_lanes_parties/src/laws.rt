//! Theorems that ports stay within their own service. They speak of the definitions that the contracts of ports cite.
ghost use Rattle.iox_lanes_parties.specs.Within.{PublishersStayWithin, SubscribersStayWithin};

/// A publisher's call names only connections and slots of its own: this holds after a call that fits begins, and after each step. The next
/// step touches a word of the service or none.
pub fn publishers_stay_within()
    ensures { PublishersStayWithin }
{}

/// A subscriber's call names only connections and samples of its own: this holds after a call that fits begins, and after each step. The
/// next step touches a word of the service or none.
pub fn subscribers_stay_within()
    ensures { SubscribersStayWithin }
{}
