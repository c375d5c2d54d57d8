//! Room for a process that is about to be started.
use buffer_table::BufferRoom;
use marker_set::Room;
use process_table::Place;

/// All the memory that a start needs behind its child: for the process with its name, for its mark, and for its
/// buffer where that is new.
pub struct StartPlace {
    pub process: Place,
    pub mark: Room,
    pub buffer: Option<BufferRoom>,
}

impl StartPlace {
    /// Gives the room back.
    pub fn release(self) {
        let StartPlace {
            process: _,
            mark: _,
            buffer,
        } = self;
        if let Some(room) = buffer {
            room.release();
        }
    }
}
