// The version of the archive. The major version is part of the function's name, so that a host compiled against another one does not link.
ghost use Rattle.std.specs.Prelude.{◌≡◌};
ghost use Rattle.pik_channel.specs.Version.{version};

#[unsafe(no_mangle)]
pub extern "C" fn pik_version_1() -> u32
    ensures { result ≡ version }
{
    1_000_000
}
