use pkg_names::{FilePath, PackagePath, Root, Texts};

/// Where a package is found, and which one it is. With a pin it is the package of that root. With a
/// file it names one file of the package.
#[derive(Debug, Drop)]
pub struct Url {
    pub host: Texts,
    pub path: PackagePath,
    pub pin: Option<Root>,
    pub file: Option<FilePath>,
}

/// The longest host, in bytes.
pub const HOST_LIMIT: usize = 255;
