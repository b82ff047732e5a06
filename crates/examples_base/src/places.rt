// Places in texts, as they are written.
use crate::answer::Answer;
use rw_base::{Place, ReadFault};

/// Writes the line and the column of a place.
pub fn put_place(place: Place, out: &mut Answer) {
    out.put_number(place.line as usize);
    out.put(":");
    out.put_number(place.column as usize);
}

/// Writes where and why a text is refused.
pub fn put_refused(fault: ReadFault, out: &mut Answer) {
    let ReadFault::Refused(refused) = fault else {
        out.refuse("memory");
        return;
    };
    out.put_debug(&refused.cause);
    out.put(" at byte ");
    out.put_number(refused.place.byte as usize);
    out.put(", ");
    put_place(refused.place, out);
}
