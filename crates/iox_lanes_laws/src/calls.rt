//! Theorems on the accesses that the calls of ports make.
//!
//! Each theorem is the contract of a function that does nothing; it speaks of the definitions that the contracts of the calls cite.
//!
//! A proof uses a theorem by calling its function; then the theorem is among the facts that the caller knows:
//!
//! ```
//! loans_take_back();
//! ```

ghost use Rattle.iox_lanes_laws.specs.Seats.{PublishersStay, SubscribersStay};
ghost use Rattle.iox_lanes_laws.specs.Courses.{LoansTakeBack, WritesStore};
ghost use Rattle.iox_lanes_laws.specs.SendCourses.{SendsPush};
ghost use Rattle.iox_lanes_laws.specs.Changes.{PublishersKeepPace, SubscribersKeepPace, LimitsHold};
ghost use Rattle.iox_lanes_laws.specs.ReceiveCourses.{ReceivesVisit, ReadsLoad, ReadsInOrder, ReleasesPush};

/// A publisher stores words of slots, the cells and the write position of submission rings, and the read position of completion rings. It
/// moves the read position of a submission ring only by exchanges, and loads no word of a slot.
pub fn publishers_stay()
    ensures { PublishersStay }
{}

/// A subscriber stores the cells and the write position of completion rings, and the read position of submission rings. It stores no word
/// of a slot.
pub fn subscribers_stay()
    ensures { SubscribersStay }
{}

/// A loan goes over its connections in their order. At each it loads the read and the write position of the completion ring. If they
/// differ, it loads the oldest cell, stores the read position, and begins at this connection again. After the last connection it touches no
/// word.
pub fn loans_take_back()
    ensures { LoansTakeBack }
{}

/// A send stores the words of header and user header, makes one step for the history, takes samples back at each connection as a loan does,
/// and then pushes to each connection in their order: it loads the write and the read position, and if there is space, it stores the cell
/// and then the write position. An overflowing ring always has space; if more messages wait then than the maximum, the push loads the
/// oldest cell and exchanges the read position.
pub fn sends_push()
    ensures { SendsPush }
{}

/// A write stores the words of the payload, one after the other, and makes no other access.
pub fn writes_store()
    ensures { WritesStore }
{}

/// A receive goes over its connections in their order. At each it loads the read and the write position of the submission ring. If a
/// message waits, and fewer samples are borrowed than the maximum, it loads the oldest cell and moves the read position, and touches no
/// word after that; after a failed exchange it goes on with the cell of the position that it found.
pub fn receives_visit()
    ensures { ReceivesVisit }
{}

/// A read loads each word of its slot once, and makes no other access.
pub fn reads_load()
    ensures { ReadsLoad }
{}

/// The words of a slot are read in their order: three of the header, those of the user header, those of the payload. The fourth word of the
/// header, which exists where messages have sequence numbers, counts as the first one of the user header here.
pub fn reads_in_order()
    ensures { ReadsInOrder }
{}

/// A release loads the write and the read position of the completion ring, and if there is space, stores the cell and then the write
/// position.
pub fn releases_push()
    ensures { ReleasesPush }
{}

/// By a publisher's own record, its connections get and lose slots at exactly the steps that move a position.
pub fn publishers_keep_pace()
    ensures { PublishersKeepPace }
{}

/// By a subscriber's own record, it borrows and returns samples at exactly the steps that move a position.
pub fn subscribers_keep_pace()
    ensures { SubscribersKeepPace }
{}

/// A receive takes nothing from a connection, and only looks, exactly if the maximum number of samples is borrowed from the connection.
pub fn limits_hold()
    ensures { LimitsHold }
{}
