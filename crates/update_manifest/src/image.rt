use package_url::Url;

/// An image that an update package names: its length, its SHA-256, and the file that has it.
#[derive(Debug, Drop)]
pub struct ImageRef {
    pub len: u64,
    pub sha: [u8; 32],
    pub url: Url,
}

/// The images of the next system, and those of its recovery.
#[derive(Debug, Drop)]
pub struct Images {
    pub zbi: ImageRef,
    pub vbmeta: Option<ImageRef>,
    pub recovery_zbi: Option<ImageRef>,
    pub recovery_vbmeta: Option<ImageRef>,
}
