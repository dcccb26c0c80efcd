use crate::{
    Geometry, SuperFault, data_start, read_super, slot_start, table_start, total_pages, write_super,
};
use abr_record::Slot;
use std::test::Fail;

// Heads of super pages, made by another program: of the geometry (64, 1024, 8), the same with layout 2,
// and of the geometry (65, 1024, 8).
const PLAIN: [u8; 56] = [
    70, 80, 75, 71, 73, 77, 71, 49, 1, 0, 0, 0, 64, 0, 0, 0, 0, 4, 0, 0, 8, 0, 0, 0, 171, 127, 113,
    225, 64, 201, 29, 115, 107, 186, 252, 132, 224, 147, 166, 6, 105, 37, 142, 42, 112, 231, 202,
    233, 211, 155, 110, 206, 198, 74, 107, 252,
];

const LAYOUT_2: [u8; 56] = [
    70, 80, 75, 71, 73, 77, 71, 49, 2, 0, 0, 0, 64, 0, 0, 0, 0, 4, 0, 0, 8, 0, 0, 0, 30, 60, 1,
    106, 245, 167, 186, 107, 11, 212, 55, 85, 119, 155, 168, 255, 169, 246, 21, 141, 31, 60, 7, 6,
    87, 146, 2, 49, 93, 112, 4, 142,
];

const BLOBS_65: [u8; 56] = [
    70, 80, 75, 71, 73, 77, 71, 49, 1, 0, 0, 0, 65, 0, 0, 0, 0, 4, 0, 0, 8, 0, 0, 0, 65, 193, 199,
    81, 58, 225, 16, 183, 173, 193, 221, 48, 152, 0, 170, 253, 23, 125, 15, 152, 200, 10, 35, 199,
    92, 24, 45, 67, 189, 64, 245, 230,
];

fn page_of(head: &[u8; 56]) -> [u8; 4096] {
    let mut page = [9; 4096];
    page[..56].copy_from_slice(head);
    page
}

fn has_head(page: &[u8; 4096], head: &[u8; 56]) -> bool {
    &page[..56] == &head[..]
}

#[test]
fn regions_of_geometries(rt: HostRuntime) {
    // blobs, data pages and slot pages; the second copy of the table, slot R, the data, the total
    for (blobs, data_pages, slot_pages, second, recovery, data, total) in [
        (64, 1024, 1, 5, 43, 61, 1085),
        (64, 1024, 8, 5, 57, 82, 1106),
        (128, 2048, 3, 7, 51, 71, 2119),
        (8192, 65_536, 8192, 195, 16_805, 25_014, 90_550),
    ] {
        let geometry = Geometry {
            blobs,
            data_pages,
            slot_pages,
        };
        assert!(rt; geometry.is_within_limits());
        assert_eq!(rt; table_start(&geometry, false), 3);
        assert_eq!(rt; table_start(&geometry, true), second);
        assert_eq!(rt; slot_start(&geometry, Slot::A), 2 * second - 3);
        assert_eq!(rt; slot_start(&geometry, Slot::R), recovery);
        assert_eq!(rt; data_start(&geometry), data);
        assert_eq!(rt; total_pages(&geometry), total);
    }
}

#[test]
fn limits(rt: HostRuntime) {
    for (blobs, data_pages, slot_pages) in [
        (0, 1024, 1),
        (65, 1024, 1),
        (8256, 1024, 1),
        (64, 0, 1),
        (64, 1025, 1),
        (64, 66_560, 1),
        (64, 1024, 0),
        (64, 1024, 8193),
    ] {
        let geometry = Geometry {
            blobs,
            data_pages,
            slot_pages,
        };
        assert!(rt;
            !geometry.is_within_limits(),
            "{blobs} {data_pages} {slot_pages}"
        );
    }
}

#[test]
fn super_pages(rt: HostRuntime) -> Result<(), Fail> {
    let geometry = Geometry {
        blobs: 64,
        data_pages: 1024,
        slot_pages: 8,
    };
    let mut page = [7; 4096];
    write_super(&geometry, &mut page);
    assert!(rt; has_head(&page, &PLAIN));
    assert_eq!(rt; page[56], 0);
    assert_eq!(rt; page[4095], 0);
    assert_eq!(rt; read_super(&page, 1106), Ok(geometry));

    let mut torn = PLAIN;
    torn[20] = 9;
    let mut other = PLAIN;
    other[0] = 71;
    for (head, pages, found) in [
        (&PLAIN, 1106, Ok(geometry)),
        (&PLAIN, 1105, Err(SuperFault::Size)),
        (&BLOBS_65, 9999, Err(SuperFault::Size)),
        (&LAYOUT_2, 0, Err(SuperFault::Layout { found: 2 })),
        (&torn, 1106, Err(SuperFault::NotAnImage)),
        (&other, 1106, Err(SuperFault::NotAnImage)),
    ] {
        assert_eq!(rt; read_super(&page_of(head), pages), found, "{pages}");
    }
    Ok(())
}
