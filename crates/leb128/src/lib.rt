// Numbers, read and written (src/storage/parse/leb128.rs): seven bits a byte, lowest first, 80 (hexadecimal) added to each byte but the last.
//
// A reader takes a slice, the place where a number starts and the place where its part of the slice ends. It answers an enum: the value and the
// next place, or the refusal. Any numbers are places; a part that isn't there has no bytes.
#![tactic(auto)]

pub mod leb128;
