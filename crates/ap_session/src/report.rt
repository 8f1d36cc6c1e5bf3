use ap_attempt::DropNote;
use ap_books::BookSeen;
use ap_list::Seq;
use ap_world::World;

/// How a session ended. The numbers are the program's exit statuses.
#[derive(Clone, Copy, Debug, PartialEq, Eq)]
pub enum Status {
    Certified,
    NotCertified,
    Usage,
    ReadFault,
    WriteFault,
    NoMemory,
}

/// What a session did: its status, the books as they were read, the last world, and what was dropped in its attempts.
#[derive(Drop)]
pub struct Report {
    pub status: Status,
    pub books: Seq<BookSeen>,
    pub world: World,
    pub drops: Seq<DropNote>,
}
