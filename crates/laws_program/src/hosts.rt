//! What holds of the conversations of `serve`. The functions do nothing: their contracts are the
//! laws.

ghost use Rattle.laws_program.specs.Hosts.Paying.{ConversationsPay, LinesPay};
ghost use Rattle.laws_program.specs.Hosts.Telling.{AlikeBegins, AlikeTalks, OneBeginsOther, OneEnd, OneTalk};

/// Of two conversations over the same bytes, both tell the same of each line, but for the place and
/// the reason of a line that is no message. Where neither had a fault or ran out of memory, both
/// tell of the same lines, and their statuses are the same. Where each line behind the first is a
/// message, one writes what the other writes, and maybe more, whatever broke one of them off; and
/// where neither had a fault or ran out of memory, both write the same. What speaks of those without
/// a fault is for fewer than 2^64 bytes, so that there are no more lines than are counted.
pub fn hosts_are_determined()
    ensures begins { AlikeBegins }
    ensures talks { AlikeTalks }
    ensures status { OneEnd }
    ensures fronts { OneBeginsOther }
    ensures text { OneTalk }
{}

/// The seats of a session share its buckets and limiters. Each line moves these by what the client of
/// its own seat answered, entry by entry, and in a conversation line by line. Only questions that
/// call the quota change what the registers mean. A further attempt is paid for at the prices of its
/// bucket, and the note of each decision tells what the bucket holds behind it. A line that is for
/// no seat, or is refused, moves nothing.
pub fn seats_pay()
    ensures line { LinesPay }
    ensures conversation { ConversationsPay }
{}
