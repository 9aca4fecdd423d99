// Persistent memory, as the layer above needs it: bits, the writers of scripts, carrying out,
// translating. Passed on, as specs/Memory.antt passes the definitions on.
pub use flushes::translate::translate as translate_script;
pub use memory::apply::apply as carry_out;
pub use memory::script::{count_stores, put_barrier, put_fenced, put_fenced_pair};
pub use memory::words::{with_bit, without_bit};
