//! The map of a device: where each of its parts begins and how long it is. No other crate writes an offset of a part.
#![tactic(auto)]

mod layout;

pub use layout::{
    BLOCK_ENTRY_SIZE, CHAIN_ZONE_SIZE, HEADER_SIZE, IMAGE_HEAD_SIZE, ROOT_ZONE_AT, ROOT_ZONE_SIZE,
    VOLUME_PIECE_SIZE, device_len, half_at, half_size, image_at, image_size,
};
pub use protocol::RECORD_SIZE;
