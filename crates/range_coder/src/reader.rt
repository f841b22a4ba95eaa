use crate::contexts::Contexts;
use crate::decoder::Decoder;

// Reads decisions from bytes.
#[derive(Drop)]
pub struct Reader<'a> {
    pub(crate) decoder: Decoder<'a>,
    pub(crate) contexts: Contexts,
}
