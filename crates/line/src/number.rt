// The numbers of kiosks and of custodians' seats: two types, so that neither stands in for the other.

// The number by which a kiosk is known: the code of a field element other than zero.
#[derive(Clone, Copy, PartialEq, Eq, Debug)]
pub struct KioskNumber(pub u32);

// The number of a custodian's seat: the code of a field element from 1 to 9.
#[derive(Clone, Copy, PartialEq, Eq, Debug)]
pub struct SeatNumber(pub u32);
