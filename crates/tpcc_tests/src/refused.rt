//! Calls whose memory is refused: each answers so, leaves all as it was, and does the same again with memory as it should.
//! `programs/refusals.sh` runs each of these tests with every allocation refused in turn; as they stand they have ample memory.
mod books;
mod desks;
mod mailboxes;
mod tables;
mod terminals;
mod turns;
