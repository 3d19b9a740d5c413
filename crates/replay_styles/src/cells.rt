// The tables of the track that the lines make.
use track::Tables;

// No line has times, segments or texts: no query looks at them, and they stay zero.
#[derive(Drop)]
pub struct Cells {
    pub head: [u32; 10],
    pub params: [u32; 256],
    pub styles: [u32; 6912],
    pub regions: [u32; 1024],
    pub cues: [u32; 22528],
    pub times: [i64; 4096],
    pub segments: [u32; 98304],
    pub sizes: [f32; 256],
    pub extras: [u32; 24576],
    pub strings: [u8; 65536],
    pub texts: [u8; 65536],
}

impl Cells {
    pub fn zero() -> Cells {
        Cells {
            head: [0; 10],
            params: [0; 256],
            styles: [0; 6912],
            regions: [0; 1024],
            cues: [0; 22528],
            times: [0; 4096],
            segments: [0; 98304],
            sizes: [0.0; 256],
            extras: [0; 24576],
            strings: [0; 65536],
            texts: [0; 65536],
        }
    }

    // As a query is handed them.
    pub fn tables(&self) -> Tables<'_> {
        Tables {
            head: &self.head,
            params: &self.params,
            styles: &self.styles,
            regions: &self.regions,
            cues: &self.cues,
            times: &self.times,
            segments: &self.segments,
            sizes: &self.sizes,
            extras: &self.extras,
            strings: &self.strings,
            texts: &self.texts,
        }
    }
}
